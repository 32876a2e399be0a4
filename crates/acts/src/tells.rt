// What an event does, where the table is well formed: the card is told what the event asks for, at the head of the record, and what that
// changes at the desk is chosen.
ghost use Rattle.std.specs.Prelude.{◌≡◌};
ghost use Rattle.turns.specs.Turns.{refused_at, turn_by};
ghost use Rattle.acts.specs.Acts.{or_full, told_at, to_send, change_of, one_more};

use crate::Change;
use asks::Asked;
use desk::Entry;
use purse::{CardEvent, Message, Name, Purse, Refusal};
use refusals::Head;
use turns::{LogChange, Turned};

// That head and that answer; the log as it was, and nothing sent.
fn quiet(head: Head, answer: u8) -> Turned
    ensures { result ≡ refused_at answer head }
{
    Turned {
        head,
        message: Message::default(),
        answer,
        log: LogChange::Nothing,
    }
}

// The card collects; 15, where the archive is full, comes after its 14.
fn collect(head: Head, own: Name, full: bool) -> Turned
    ensures { result ≡ or_full full (turn_by head own CardEvent.Collect) }
{
    let mut turned = turns::turn(head, own, CardEvent::Collect);
    if full & (turned.answer == 0) {
        turned.answer = u8::from(Refusal::ArchiveFull);
    }
    turned
}

// What is asked for, at the head of the record: the card is told. The record of a purse that is issued, all zero so far, gets the head of an
// opened purse.
#[tactic(auto, unfolding(crate::specs::Acts::told_at))]
pub fn tell(head: Head, asked: Asked) -> Turned
    ensures { result ≡ told_at head asked }
{
    match asked {
        Asked::Refused(answer) => quiet(head, answer),
        Asked::Lose(_) => quiet(head, 0),
        Asked::Tell { own, event } => turns::turn(head, own, event),
        Asked::Collect { own, full } => collect(head, own, full),
        Asked::Issue(balance) => quiet(Head::from(Purse::opened(balance)), 0),
    }
}

// The message to send; kind 0 is no message.
#[tactic(auto, unfolding(crate::specs::Acts::to_send))]
fn sending(m: Message) -> Change
    ensures { result ≡ to_send m }
{
    if m.kind == 0 {
        Change::Nothing
    } else {
        Change::Send(m)
    }
}

// What is changed at the desk, p being the record before the step and m the message that the card handed out. The archive keeps the oldest
// log entry.
#[tactic(auto, unfolding(crate::specs::Acts::change_of))]
pub fn change_of(p: Purse, asked: Asked, m: Message) -> Change
    ensures { result ≡ change_of p asked m }
{
    match asked {
        Asked::Refused(_) => Change::Nothing,
        Asked::Lose(place) => Change::Lose(place),
        Asked::Tell { .. } => sending(m),
        Asked::Collect { own, .. } => Change::Store(Entry {
            by: own,
            details: card::oldest(p),
        }),
        Asked::Issue(_) => Change::Issue,
    }
}

// One purse more, of at most 32.
#[tactic(auto, unfolding(crate::specs::Acts::one_more))]
pub fn one_more(purses: u8) -> u8
    ensures { result ≡ one_more purses }
{
    if purses < 32 { purses + 1 } else { purses }
}
