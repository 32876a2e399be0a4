// What a purse holds: names, sequence numbers, amounts, payment details, messages and the purse record itself, with the ceilings of
// document 01. What the purse's rules and steps are stands in specs/; the code of the steps is the crate card.
#![tactic(auto)]

ghost use Rattle.std.specs.Prelude.{◌≡◌};
ghost use Rattle.purse.specs.Purse.{ceiling, opened_purse};

mod refusal; // refusal.rt: why a step is refused

pub use refusal::{Refusal, refuse_if};

// The place of a purse in the table, from 0.
#[repr(C)]
#[derive(Clone, Copy, PartialEq, Eq, Default)]
pub struct Name(pub u8);

// A sequence number.
#[repr(C)]
#[derive(Clone, Copy, PartialEq, Eq, Default)]
pub struct Seq(pub u32);

// An amount of money.
#[repr(C)]
#[derive(Clone, Copy, PartialEq, Eq, Default)]
pub struct Amount(pub u32);

impl Name {
    pub const LAST: u8 = 31;
}

// Payment details. Unused ones are zero in every field, as `default` makes them; so are an unused message and an unused record.
#[repr(C)]
#[derive(Clone, Copy, PartialEq, Eq, Default)]
pub struct Details {
    pub payer: Name,
    pub payerseq: Seq,
    pub payee: Name,
    pub payeeseq: Seq,
    pub amount: Amount,
}

// Kind 1 request, 2 value, 3 acknowledge.
#[repr(C)]
#[derive(Clone, Copy, PartialEq, Eq, Default)]
pub struct Message {
    pub kind: u8,
    pub details: Details,
}

// Status 0 idle, 1 epr, 2 epv, 3 epa; `logged` of the log's places are used.
#[repr(C)]
#[derive(Clone, Copy, PartialEq, Eq, Default)]
pub struct Purse {
    pub balance: Amount,
    pub next: Seq,
    pub status: u8,
    pub details: Details,
    pub log: [Details; 8],
    pub logged: u8,
}

// What a card is told.
#[derive(Clone, Copy)]
pub enum CardEvent {
    StartFrom {
        other: Name,
        seq: Seq,
        amount: Amount,
    },
    StartTo {
        other: Name,
        seq: Seq,
        amount: Amount,
    },
    Deliver(Message),
    Abort,
    Collect,
    Load(Amount),
}

// What a card answers: the number, the record, and the message to send or the entry collected, or all zero.
#[repr(C)]
#[derive(Clone, Copy)]
pub struct CardAnswer {
    pub answer: u8,
    pub purse: Purse,
    pub message: Message,
    pub entry: Details,
}

impl Purse {
    pub const MAX_BALANCE: Amount = Amount(5_000_000);

    pub const MAX_AMOUNT: Amount = Amount(5_000_000);

    pub const LOG_PLACES: u8 = 8;

    // Never used for a transfer.
    pub const LAST_SEQ: Seq = Seq(4_294_967_295);

    // The most that this purse may hold: every test of the balance ceiling reads it here.
    pub fn ceiling(self) -> Amount
        ensures { result.0 ≡ ceiling self }
    {
        Purse::MAX_BALANCE
    }

    // A purse as the bench is opened: that balance, next number 1, idle, no entries.
    pub fn opened(balance: Amount) -> Purse
        ensures { result ≡ opened_purse balance }
    {
        Purse {
            balance,
            next: Seq(1),
            ..Purse::default()
        }
    }
}
