// What the bench holds beside its table of purses: the ether (the messages that stand), the issuer's archive, and the purse count.
// Document 01 has each change by value: a method takes it and hands back its next state.
#![tactic(auto)]

mod entries;
mod messages;

ghost use Rattle.std.specs.Prelude.{◌≡◌, ◌+◌, cond, ltb, set};
ghost use Rattle.desk.specs.Desk.{places, opened_desk};

use purse::{Details, Message, Name, Purse};

// A log entry that the issuer has collected, and the purse that logged it.
#[repr(C)]
#[derive(Clone, Copy, PartialEq, Eq, Default)]
pub struct Entry {
    pub by: Name,
    pub details: Details,
}

// The messages that stand, from place 0; unused places are all zero.
#[repr(C)]
#[derive(Clone, Copy)]
pub struct Ether {
    pub places: [Message; 256],
    pub count: u16,
}

// The entries collected, from place 0; unused places are all zero.
#[repr(C)]
#[derive(Clone, Copy)]
pub struct Archive {
    pub places: [Entry; 256],
    pub count: u16,
}

// The ether's next state, and whether a message was lost on the way.
#[derive(Clone, Copy)]
pub struct Changed {
    pub ether: Ether,
    pub lost: bool,
}

// All that a bench holds beside its table.
#[repr(C)]
#[derive(Clone, Copy)]
pub struct Desk {
    pub purses: u8,
    pub ether: Ether,
    pub archive: Archive,
}

// What a bench holds: its table of 32 purse records, and its desk.
#[repr(C)]
#[derive(Clone, Copy)]
pub struct Held {
    pub table: [Purse; 32],
    pub desk: Desk,
}

// What a call answers, and what the bench then holds.
#[repr(C)]
#[derive(Clone, Copy)]
pub struct Answered {
    pub answer: u8,
    pub held: Held,
}

// The claims figure, beside the answer.
#[repr(C)]
#[derive(Clone, Copy)]
pub struct Figure {
    pub answer: u8,
    pub claims: u32,
}

impl Desk {
    // The desk of an opened bench of so many purses.
    pub fn opened(purses: u8) -> Desk
        ensures { result ≡ opened_desk purses }
    {
        Desk {
            purses,
            ether: Ether::empty(),
            archive: Archive::empty(),
        }
    }
}

// An item in the first unused place, and one more in the count, while there is room; whether there was.
fn append<T: Copy>(items: &mut [T; 256], count: &mut u16, item: T) -> bool
    ensures { (result ≡ ltb count.old places)
        × (items.new ≡ cond (ltb count.old places) (set items.old count.old item) items.old)
        × (count.new ≡ cond (ltb count.old places) (count.old + 1) count.old) }
{
    let room = *count < 256;
    if room {
        items[usize::from(*count)] = item;
        *count += 1;
    }
    room
}
