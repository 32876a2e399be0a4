// The events of a piece of the input, run and listed.
ghost use Rattle.std.specs.Prelude.{◌≡◌, ◌++◌, ◌≤◌, length, drop};
ghost use Rattle.rules.specs.Laid.{held_run, held_answers};
ghost use Rattle.listing.specs.Piece.{events_in, piece_of, piece_buffer};

use crate::Listed;
use bench::Ran;
use desk::Held;
use lines::events;

// Every event of a piece, a last one cut short too.
fn answer_all(held: Held, input: &[u8], answers: &mut [u8]) -> Ran
    requires { (length input.now ≤ 6144) × (512 ≤ length answers.old) }
    ensures taken_value { (result.taken ≡ length (events_in input.now)) × (result.held ≡ held_run held (events_in input.now))
        × (answers.new ≡ held_answers held (events_in input.now) ++ drop (length (events_in input.now)) answers.old) }
    ensures taken_bound { result.taken ≤ 512 }
{
    let ran = bench::run(held, input, answers);
    let whole = ran.taken;
    let at = 12 * whole;
    if at == input.len() {
        return ran;
    }
    let last = bench::event(ran.held, &input[at..]);
    answers[whole] = last.answer;
    Ran {
        taken: whole + 1,
        held: last.held,
    }
}

// Runs a piece of at most 512 events and puts their lines into the buffer, the first of them that of event `first`.
#[tactic(auto, unfolding(crate::specs::Piece::piece_fits, crate::specs::Piece::piece_of, crate::specs::Piece::piece_buffer))]
pub fn piece(held: Held, first: u64, input: &[u8], out: &mut [u8]) -> Listed
    ensures value { (result ≡ piece_of held first input.now out.old) × (out.new ≡ piece_buffer held first input.now out.old) }
    ensures events_bound { (result.events ≤ 512) × (result.length ≤ length out.new) }
{
    if 6144 < input.len() || out.len() < 21504 || 1_000_000_000_000_000_000 < first {
        return Listed {
            held,
            events: 0,
            length: 0,
        };
    }
    let mut answers = [0; 512];
    let ran = answer_all(held, input, &mut answers);
    let length = events(out, first, &answers[..ran.taken]);
    Listed {
        held: ran.held,
        events: ran.taken,
        length,
    }
}
