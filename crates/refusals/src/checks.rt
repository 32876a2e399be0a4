// Whether a step is refused, behind the test of the record: its tests, top to bottom, in the documents' order. They read the head of the
// record alone.
ghost use Rattle.std.specs.Prelude.{◌+◌, ◌≡◌, ltb};
ghost use Rattle.purse.specs.Details.{legal};
ghost use Rattle.purse.specs.Refusals.{answer_of};
ghost use Rattle.purse.specs.Tests.{first};
ghost use Rattle.refusals.specs.Numbers.{start_number, from_number, to_number, expected, fits, deliver_number, abort_number, collect_number, raise_tests, load_number};

use crate::Head;
use purse::{Amount, Message, Name, Purse, Refusal, refuse_if};

// An amount from 1 to the ceiling.
#[tactic(auto, unfolding(purse::specs::Details::legal))]
pub fn is_legal(a: Amount) -> bool
    ensures { result ≡ legal a }
{
    (1 <= a.0) & (a.0 <= Purse::MAX_AMOUNT.0)
}

// The tests that both starts have.
#[tactic(auto, unfolding(crate::specs::Numbers::start_number))]
fn check_start(h: Head, own: Name, other: Name, amount: Amount) -> Result<(), Refusal>
    ensures { answer_of result ≡ start_number h own other amount }
{
    refuse_if(Name::LAST < own.0, Refusal::NoPurse)?;
    refuse_if(
        (Name::LAST < other.0) | (other == own),
        Refusal::BadCounterparty,
    )?;
    refuse_if(!is_legal(amount), Refusal::BadAmount)?;
    refuse_if(h.status != 0, Refusal::Busy)?;
    refuse_if(h.next == Purse::LAST_SEQ, Refusal::NumbersUsedUp)?;
    refuse_if(Purse::LOG_PLACES <= h.logged, Refusal::LogFull)
}

// A start-from: last, the balance.
#[tactic(auto, unfolding(crate::specs::Numbers::start_number, crate::specs::Numbers::from_number))]
pub fn check_from(h: Head, own: Name, other: Name, amount: Amount) -> Result<(), Refusal>
    ensures { answer_of result ≡ from_number h own other amount }
{
    check_start(h, own, other, amount)?;
    refuse_if(h.balance.0 < amount.0, Refusal::AboveBalance)
}

// Whether the balance would rise above the ceiling: the sum is exact.
fn is_above(h: Head, amount: Amount) -> bool
    ensures { result ≡ ltb h.most.0 (h.balance.0 + amount.0) }
{
    let most = u64::from(h.most.0);
    let after = u64::from(h.balance.0) + u64::from(amount.0);
    most < after
}

// A start-to: last, the ceiling.
#[tactic(auto, unfolding(crate::specs::Numbers::start_number, crate::specs::Numbers::to_number))]
pub fn check_to(h: Head, own: Name, other: Name, amount: Amount) -> Result<(), Refusal>
    ensures { answer_of result ≡ to_number h own other amount }
{
    check_start(h, own, other, amount)?;
    refuse_if(is_above(h, amount), Refusal::AboveCeiling)
}

// The message that the purse waits for: request in epr, value in epv, acknowledge in epa, with equal details.
#[tactic(auto, unfolding(purse::specs::Details::same_details, crate::specs::Numbers::expected))]
fn expects(h: Head, m: Message) -> bool
    ensures { result ≡ expected h m }
{
    let same = h.details == m.details;
    match m.kind {
        1 => same & (h.status == 1),
        2 => same & (h.status == 2),
        3 => same & (h.status == 3),
        0 | 4..=255 => false,
    }
}

// Whether the balance after a message of that kind is there: on a well-formed record it always is.
#[tactic(auto, unfolding(crate::specs::Numbers::fits))]
fn fits(h: Head, kind: u8) -> bool
    ensures { result ≡ fits h kind }
{
    let d = h.details;
    match kind {
        1 => d.amount.0 <= h.balance.0,
        2 => !is_above(h, d.amount),
        0 | 3..=255 => true,
    }
}

#[tactic(auto, unfolding(crate::specs::Numbers::deliver_number))]
pub fn check_deliver(h: Head, own: Name, m: Message) -> Result<(), Refusal>
    ensures { answer_of result ≡ deliver_number h own m }
{
    refuse_if(Name::LAST < own.0, Refusal::NoPurse)?;
    refuse_if(!expects(h, m), Refusal::NotExpected)?;
    refuse_if(!fits(h, m.kind), Refusal::NotWellFormed)
}

// An abort: a log place is there for a busy purse, on a well-formed record.
#[tactic(auto, unfolding(crate::specs::Numbers::abort_number))]
pub fn check_abort(h: Head, own: Name) -> Result<(), Refusal>
    ensures { answer_of result ≡ abort_number h own }
{
    refuse_if(Name::LAST < own.0, Refusal::NoPurse)?;
    refuse_if(
        !((h.status == 0) | (h.logged < Purse::LOG_PLACES)),
        Refusal::NotWellFormed,
    )
}

#[tactic(auto, unfolding(crate::specs::Numbers::collect_number))]
pub fn check_collect(h: Head, own: Name) -> Result<(), Refusal>
    ensures { answer_of result ≡ collect_number h own }
{
    refuse_if(Name::LAST < own.0, Refusal::NoPurse)?;
    refuse_if(h.logged == 0, Refusal::LogEmpty)
}

// The purse is idle, and its balance may rise by the amount.
fn check_raise(h: Head, amount: Amount) -> Result<(), Refusal>
    ensures { answer_of result ≡ first (raise_tests h amount) }
{
    refuse_if(h.status != 0, Refusal::Busy)?;
    refuse_if(is_above(h, amount), Refusal::AboveCeiling)
}

#[tactic(auto, unfolding(crate::specs::Numbers::load_number))]
pub fn check_load(h: Head, own: Name, amount: Amount) -> Result<(), Refusal>
    ensures { answer_of result ≡ load_number h own amount }
{
    refuse_if(Name::LAST < own.0, Refusal::NoPurse)?;
    refuse_if(!is_legal(amount), Refusal::BadAmount)?;
    check_raise(h, amount)
}
