// An event at the whole bench: the rules first, then the event's bytes, then the one event as a run takes it.
ghost use Rattle.std.specs.Prelude.{◌≡◌};
ghost use Rattle.rules.specs.Laid.{held_step};

use crate::runs::each;
use desk::{Answered, Held};
use purse::Refusal;

#[tactic(auto, using(crate::proofs::Filling::no_event, crate::proofs::Filling::run_of_one), unfolding(rules::specs::Laid::held_step))]
pub fn event(held: Held, event: &[u8]) -> Answered
    ensures { result ≡ held_step held event.now }
{
    if !table::held_ok(held) {
        return Answered {
            answer: u8::from(Refusal::NotWellFormed),
            held,
        };
    }
    if event.len() != 12 {
        return Answered {
            answer: u8::from(Refusal::BadEvent),
            held,
        };
    }
    let mut answers = [0u8; 1];
    let next = each(held, event, &mut answers, 1);
    Answered {
        answer: answers[0],
        held: next,
    }
}
