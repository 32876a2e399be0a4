// The card: one purse record and its step. Told its own name, a card takes a start, a message, an abort, a collect or a load, and gives
// the answer's number, the record and what it hands out. It knows nothing of a bench.
#![tactic(auto)]

ghost use Rattle.std.specs.Prelude.{◌≡◌};
ghost use Rattle.purse.specs.Card.{step_by};
ghost use Rattle.card.specs.Act.{act_by};

use form::well_formed;
use purse::{CardAnswer, CardEvent, Name, Purse, Refusal};
use refusals::Head;
use turns::turn;

mod log; // log.rt: the record put together: its new head, and its log

pub use log::{oldest, record};

// The card's whole step, on its record by value: the record is tested first.
#[tactic(auto, using(crate::proofs::ByAct::step_by_act))]
pub fn step(purse: Purse, own: Name, event: CardEvent) -> CardAnswer
    ensures { result ≡ step_by purse own event }
{
    if well_formed(purse, own) {
        act(purse, own, event)
    } else {
        log::refused(purse, Refusal::NotWellFormed)
    }
}

// The step behind that test, for whoever knows that the record is well formed. On another record it is some answer too (`act_by`).
pub fn act(purse: Purse, own: Name, event: CardEvent) -> CardAnswer
    ensures { result ≡ act_by purse own event }
{
    log::answered(purse, turn(Head::from(purse), own, event))
}
