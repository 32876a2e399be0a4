// What an event does: the card told at the head of the record that it means, and what that changes at the desk. By value.
#![tactic(auto)]

use desk::Entry;
use purse::Message;

mod tells; // tells.rt: the card told, and what that changes

pub use tells::{change_of, one_more, tell};

// What an event changes at the desk: a message is sent, or the one at a place goes, or an entry is appended to the archive, or one purse more
// stands in the table.
#[derive(Clone, Copy)]
pub enum Change {
    Nothing,
    Send(Message),
    Lose(u32),
    Store(Entry),
    Issue,
}
