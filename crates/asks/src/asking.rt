// What an event asks for: the tests that read the desk, in the documents' order.
ghost use Rattle.std.specs.Prelude.{◌≡◌};
ghost use Rattle.purse.specs.Refusals.{answer_of};
ghost use Rattle.purse.specs.Tests.{first};
ghost use Rattle.rules.specs.Steps.{class_ok};
ghost use Rattle.asks.specs.Asks.{start_tests, deliver_tests, purse_tests, lose_tests, issue_tests, answering, asked};

use crate::{Asked, Seen};
use purse::{Amount, CardEvent, Name, Purse, Refusal, refuse_if};
use rules::Event;

fn check_purse(purses: u8, own: Name) -> Result<(), Refusal>
    ensures { answer_of result ≡ first (purse_tests purses own) }
{
    refuse_if(purses <= own.0, Refusal::NoPurse)
}

fn check_start(purses: u8, own: Name, other: Name) -> Result<(), Refusal>
    ensures { answer_of result ≡ first (start_tests purses own other) }
{
    check_purse(purses, own)?; // the purse first, then its counterparty
    refuse_if(purses <= other.0, Refusal::BadCounterparty)
}

fn check_lose(messages: u16, place: u32) -> Result<(), Refusal>
    ensures { answer_of result ≡ first (lose_tests messages place) }
{
    refuse_if(u32::from(messages) <= place, Refusal::NoMessage)
}

fn check_deliver(purses: u8, messages: u16, own: Name, place: u32) -> Result<(), Refusal>
    ensures { answer_of result ≡ first (deliver_tests purses messages own place) }
{
    check_purse(purses, own)?;
    check_lose(messages, place)
}

// Class 0, a person: the one class until A2.
fn class_ok(class: u8) -> bool
    ensures { result ≡ class_ok class }
{
    class == 0
}

fn check_issue(purses: u8, class: u8, balance: Amount) -> Result<(), Refusal>
    ensures { answer_of result ≡ first (issue_tests purses class balance) }
{
    refuse_if(32 <= purses, Refusal::TableFull)?;
    refuse_if(!class_ok(class), Refusal::BadClass)?;
    refuse_if(
        Purse::MAX_BALANCE.0 < balance.0,
        Refusal::BalanceAboveCeiling,
    )
}

// What an event asks for, or why it is refused, by what is seen of the desk. The archive is full with 256 entries.
#[tactic(auto, using(purse::proofs::Refusals::not_done), unfolding(crate::specs::Asks::to_tell, crate::specs::Asks::to_collect, crate::specs::Asks::to_lose, crate::specs::Asks::to_issue, crate::specs::Asks::asked))]
fn asks_for(seen: Seen, event: Event) -> Result<Asked, Refusal>
    ensures { answering result ≡ asked seen event }
{
    match event {
        Event::Malformed => Err(Refusal::BadEvent),
        Event::StartFrom {
            purse,
            other,
            seq,
            amount,
        } => {
            check_start(seen.purses, purse, other)?;
            Ok(Asked::Tell {
                own: purse,
                event: CardEvent::StartFrom { other, seq, amount },
            })
        }
        Event::StartTo {
            purse,
            other,
            seq,
            amount,
        } => {
            check_start(seen.purses, purse, other)?;
            Ok(Asked::Tell {
                own: purse,
                event: CardEvent::StartTo { other, seq, amount },
            })
        }
        Event::Deliver { purse, place } => {
            check_deliver(seen.purses, seen.messages, purse, place)?;
            Ok(Asked::Tell {
                own: purse,
                event: CardEvent::Deliver(seen.message),
            })
        }
        Event::Abort { purse } => {
            check_purse(seen.purses, purse)?;
            Ok(Asked::Tell {
                own: purse,
                event: CardEvent::Abort,
            })
        }
        Event::Lose { place } => {
            check_lose(seen.messages, place)?;
            Ok(Asked::Lose(place))
        }
        Event::Collect { purse } => {
            check_purse(seen.purses, purse)?;
            Ok(Asked::Collect {
                own: purse,
                full: 256 <= seen.entries,
            })
        }
        Event::Issue { class, balance } => {
            check_issue(seen.purses, class, balance)?;
            Ok(Asked::Issue(balance))
        }
        Event::Load { purse, amount } => {
            check_purse(seen.purses, purse)?;
            Ok(Asked::Tell {
                own: purse,
                event: CardEvent::Load(amount),
            })
        }
    }
}

// The same with the refusal's number, where it is refused.
pub fn ask(seen: Seen, event: Event) -> Asked
    ensures { result ≡ asked seen event }
{
    match asks_for(seen, event) {
        Ok(asked) => asked,
        Err(why) => Asked::Refused(u8::from(why)),
    }
}
