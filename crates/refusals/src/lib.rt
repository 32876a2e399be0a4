// When a card refuses: the head of a record, and the tests of each step in the documents' order.
#![tactic(auto)]

use purse::{Amount, Details, Seq};

pub mod checks; // checks.rt: the tests that refuse a step
mod heads; // heads.rt: the head of a record

// The head of a record: a purse without its log, and `most`, the ceiling of its balance. A step's tests read nothing else, and most steps
// change nothing else.
#[derive(Clone, Copy)]
pub struct Head {
    pub balance: Amount,
    pub next: Seq,
    pub details: Details,
    pub status: u8,
    pub logged: u8,
    pub most: Amount,
}
