// The bench's entries: "The bench owns a table of 32 purse records, lent to each call." Each is thin: an event steps one record by value and stores
// it back; the others work on the table copied out. What each does is the bench's own definition, over the lent table beside the desk.
#![tactic(auto)]

ghost use Rattle.std.specs.Prelude.{◌≡◌};
ghost use Rattle.rules.specs.Laid.{held_step, held_opening, held_claims};
ghost use Rattle.bench.specs.Runs.{run_of};
ghost use Rattle.walk_table.specs.Lent.{held};

use bench::run;
use claims::claims;
use desk::{Answered, Desk, Figure, Held};
use opens::opening;
use purse::{Purse, Refusal};
use walk_desk::{seen_at, written_at};
use walk_store::stored;
use walk_table::{copied, table_ok};

// An event, over a table and a desk that are both lent.
#[tactic(auto, using(walk_table::proofs::Whole::long_is, asks::proofs::Looks::seen_below), unfolding(rules::specs::Laid::held_step))]
#[unsafe(no_mangle)]
pub extern "C" fn prs_event(table: &mut [Purse], desk: &mut Desk, event: &[u8]) -> u8
    ensures { (result ≡ (held_step (held table.old desk.old) event.now).answer)
        × (table.new ≡ (held_step (held table.old desk.old) event.now).held.table)
        × (desk.new ≡ (held_step (held table.old desk.old) event.now).held.desk) }
{
    if !table_ok(table, desk) {
        return Refusal::NotWellFormed.into();
    }
    let seen = seen_at(desk, event);
    let at = seen.place;
    let d = written_at(desk, table[at], seen, event);
    table[at] = d.purse;
    d.answer
}

// The claims figure, over a table and a desk that are both lent.
#[tactic(auto, using(walk_table::proofs::Whole::claims_lent))]
#[unsafe(no_mangle)]
pub extern "C" fn prs_claims(table: &[Purse], desk: &Desk) -> Figure
    ensures { result ≡ held_claims (held table.now desk.now) }
{
    claims(Held {
        table: copied(table),
        desk: *desk,
    })
}

// A bench opened with these balances, over a table and a desk that are both lent.
#[tactic(auto, using(walk_store::proofs::Whole::opening_lent))]
#[unsafe(no_mangle)]
pub extern "C" fn prs_opening(table: &mut [Purse], desk: &mut Desk, balances: &[u32]) -> u8
    ensures { (result ≡ (held_opening (held table.old desk.old) balances.now).answer)
        × (table.new ≡ (held_opening (held table.old desk.old) balances.now).held.table)
        × (desk.new ≡ (held_opening (held table.old desk.old) balances.now).held.desk) }
{
    let by = opening_over(copied(table), *desk, balances);
    stored(table, desk, by)
}

// The whole events of a list, as many as there are places for answers, over a table and a desk that are both lent; how many were taken.
#[tactic(auto, using(crate::proofs::Runs::run_lent, crate::proofs::Runs::answers_lent))]
#[unsafe(no_mangle)]
pub extern "C" fn prs_run(
    table: &mut [Purse],
    desk: &mut Desk,
    list: &[u8],
    answers: &mut [u8],
) -> usize
    ensures { (result ≡ (run_of (held table.old desk.old) list.now answers.old).taken)
        × (table.new ≡ (run_of (held table.old desk.old) list.now answers.old).held.table)
        × (desk.new ≡ (run_of (held table.old desk.old) list.now answers.old).held.desk)
        × (answers.new ≡ (run_of (held table.old desk.old) list.now answers.old).answers) }
{
    let by = run(
        Held {
            table: copied(table),
            desk: *desk,
        },
        list,
        answers,
    );
    let kept = Answered {
        answer: 0,
        held: by.held,
    };
    stored(table, desk, kept);
    by.taken
}

// An opening over a table and a desk, not over what both make: its stack is less by 18 KB.
fn opening_over(table: [Purse; 32], desk: Desk, balances: &[u32]) -> Answered
    ensures { result ≡ held_opening (held table desk) balances.now }
{
    opening(Held { table, desk }, balances)
}
