// Many events: the rules are tested once, since every step keeps them.
ghost use Rattle.std.specs.Prelude.{◌≡◌, true, ◌++◌, ◌*◌, ◌≤◌, length, drop};
ghost use Rattle.rules.specs.Laid.{held_ok, held_run, held_answers};
ghost use Rattle.bench.specs.Runs.{pieces, run_of};

use crate::Ran;
use acts::{Change, change_of, one_more, tell};
use asks::{ask, delivered_at, look, within};
use desk::{Desk, Held};
use events::decode;
use purse::Refusal;
use refusals::Head;

// The first n events, at a table that is well formed; the single event too is taken here. Each is looked at (which record it means, and what
// its tests read of the desk), what it asks for is told to the card, and what that changes is carried out.
// Its bench is on the stack for as long as it runs, and no longer: it is not put in line.
#[inline(never)]
#[tactic(auto, using(asks::proofs::Looks::within_less, asks::proofs::Looks::look_below))]
pub(crate) fn each(held: Held, input: &[u8], answers: &mut [u8], n: usize) -> Held
    requires { (held_ok held ≡ true) × (12 * n ≤ length input.now) × (n ≤ length answers.old) }
    ensures { (result ≡ held_run held (pieces n input.now)) × (answers.new ≡ held_answers held (pieces n input.now) ++ drop n answers.old) }
{
    let mut table = held.table;
    let desk = held.desk;
    let mut purses = desk.purses;
    let mut ether = desk.ether;
    let mut archive = desk.archive;
    for i in 0..n {
        let event = decode(&input[12 * i..12 * i + 12]);
        let delivered = within(delivered_at(event));
        let seen = look(
            purses,
            ether.count,
            archive.count,
            ether.places[delivered],
            event,
        );
        let place = seen.place;
        let p = table[place];
        let asked = ask(seen, event);
        let t = tell(Head::from(p), asked);
        let mut answer = t.answer;
        let moves = t.answer == 0; // from 2 up nothing changes
        if moves {
            table[place] = card::record(p, t.head, t.log);
            match change_of(p, asked, t.message) {
                Change::Nothing => {}
                Change::Send(message) => {
                    let changed = ether.add(message);
                    ether = changed.ether;
                    answer = u8::from(changed.lost);
                }
                Change::Lose(at) => {
                    let changed = ether.take_out(at as usize);
                    ether = changed.ether;
                }
                Change::Store(entry) => archive = archive.store(entry),
                Change::Issue => purses = one_more(purses),
            }
        }
        answers[i] = answer;
    }
    Held {
        table,
        desk: Desk {
            purses,
            ether,
            archive,
        },
    }
}

// The whole events of the input, as many as there are places for answers. Places past them stay as they were.
#[tactic(auto, using(crate::proofs::Filling::taken_is, crate::proofs::Filling::refused_run, crate::proofs::Filling::refused_answers))]
pub fn run(held: Held, input: &[u8], answers: &mut [u8]) -> Ran
    ensures { (result.taken ≡ (run_of held input.now answers.old).taken)
        × (result.held ≡ (run_of held input.now answers.old).held)
        × (answers.new ≡ (run_of held input.now answers.old).answers) }
{
    let taken = (input.len() / 12).min(answers.len());
    if table::held_ok(held) {
        Ran {
            taken,
            held: each(held, input, answers, taken),
        }
    } else {
        answers[..taken].fill(u8::from(Refusal::NotWellFormed));
        Ran { taken, held }
    }
}
