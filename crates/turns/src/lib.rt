// A card's step behind the test of its record, at the head of the record: the log is not read, only told what becomes of it.
#![tactic(auto)]

ghost use Rattle.std.specs.Prelude.{◌≡◌};
ghost use Rattle.turns.specs.Turns.{turned, turn_by};

use purse::{CardEvent, Message, Name, Refusal};
use refusals::Head;

mod done; // done.rt: refused or done, and the purse idle again
mod starts; // starts.rt: start-from and start-to
mod delivery; // delivery.rt: a message
mod ends; // ends.rt: abort and collect
mod loads; // loads.rt: load

// What becomes of the exception log: nothing; the running details appended; the oldest entry out, the later ones one place down.
#[derive(Clone, Copy)]
pub enum LogChange {
    Nothing,
    Append,
    OldestOut,
}

// What a step makes of a head: the answer, the next head, what becomes of the log, and the message to send or an all-zero one.
#[derive(Clone, Copy)]
pub struct Turned {
    pub head: Head,
    pub message: Message,
    pub answer: u8,
    pub log: LogChange,
}

// The step, by the event: done, or why it is refused.
fn step(head: Head, own: Name, event: CardEvent) -> Result<Turned, Refusal>
    ensures { turned head result ≡ turn_by head own event }
{
    match event {
        CardEvent::StartFrom { other, seq, amount } => {
            starts::start_from(head, own, other, seq, amount)
        }
        CardEvent::StartTo { other, seq, amount } => {
            starts::start_to(head, own, other, seq, amount)
        }
        CardEvent::Deliver(m) => delivery::deliver(head, own, m),
        CardEvent::Abort => ends::abort(head, own),
        CardEvent::Collect => ends::collect(head, own),
        CardEvent::Load(amount) => loads::load(head, own, amount),
    }
}

// The step, a refused one too: it leaves the head as it was.
pub fn turn(head: Head, own: Name, event: CardEvent) -> Turned
    ensures { result ≡ turn_by head own event }
{
    match step(head, own, event) {
        Ok(done) => done,
        Err(why) => done::refused(head, why),
    }
}
