// What an event asks for: the record and the message that it means, and the tests that read the desk. By value.
#![tactic(auto)]

use purse::{Amount, CardEvent, Message, Name};

mod asking; // asking.rt: the tests that read the desk
mod looking; // looking.rt: the record that an event means, and what is seen of the desk

pub use asking::ask;
pub use looking::{delivered_at, look, within};

// What is seen of an event and the desk: the place of the record that the event means; and what its tests read of the desk, its counts and the
// message that is delivered, or an all-zero one.
#[derive(Clone, Copy)]
pub struct Seen {
    pub place: usize,
    pub purses: u8,
    pub messages: u16,
    pub entries: u16,
    pub message: Message,
}

// What an event asks for, behind the tests that read the desk: it is refused; or a message goes; or the card is told something, and its
// message is sent; or the card is told to collect, and its entry is stored in an archive that may be full; or a purse is issued with a first
// balance.
#[derive(Clone, Copy)]
pub enum Asked {
    Refused(u8),
    Lose(u32),
    Tell { own: Name, event: CardEvent },
    Collect { own: Name, full: bool },
    Issue(Amount),
}
