// What an event says, once its bytes are read. The rules that decide what it does stand in specs/.
#![tactic(auto)]

use purse::{Amount, Name, Seq};

#[derive(Clone, Copy)]
pub enum Event {
    Malformed,
    StartFrom {
        purse: Name,
        other: Name,
        seq: Seq,
        amount: Amount,
    },
    StartTo {
        purse: Name,
        other: Name,
        seq: Seq,
        amount: Amount,
    },
    Deliver {
        purse: Name,
        place: u32,
    },
    Abort {
        purse: Name,
    },
    Lose {
        place: u32,
    },
    Collect {
        purse: Name,
    },
    Issue {
        class: u8,
        balance: Amount,
    },
    Load {
        purse: Name,
        amount: Amount,
    },
}
