// A record put together after a step: its new head, and its exception log with what becomes of it.
ghost use Rattle.std.specs.Prelude.{◌≡◌, get_or};
ghost use Rattle.purse.specs.Details.{zero_details};
ghost use Rattle.purse.specs.Refusals.{number_of};
ghost use Rattle.purse.specs.Step.{refused_by, moved_down};
ghost use Rattle.card.specs.Act.{log_after, record_after, handed_out, answered_by};

use purse::{CardAnswer, Details, Message, Purse, Refusal};
use refusals::Head;
use turns::{LogChange, Turned};

// Refused: the record as it was, and nothing handed out.
pub(crate) fn refused(purse: Purse, why: Refusal) -> CardAnswer
    ensures { result ≡ refused_by (number_of why) purse }
{
    CardAnswer {
        answer: u8::from(why),
        purse,
        message: Message::default(),
        entry: Details::default(),
    }
}

// The running details behind the entries; past the last place nothing is put.
fn appended(p: Purse) -> [Details; 8]
    ensures { result ≡ log_after p LogChange.Append }
{
    let mut log = p.log;
    if p.logged < Purse::LOG_PLACES {
        log[p.logged as usize] = p.details;
    }
    log
}

// The oldest entry out, the later ones one place down.
#[tactic(auto, using(purse::proofs::Log::moved))]
fn moved_down(l: [Details; 8]) -> [Details; 8]
    ensures { result ≡ moved_down l }
{
    [l[1], l[2], l[3], l[4], l[5], l[6], l[7], Details::default()]
}

// The first place of the log.
pub fn oldest(p: Purse) -> Details
    ensures { result ≡ get_or p.log 0 zero_details }
{
    p.log[0]
}

// The record p after a step: the next head, and the log with what becomes of it.
pub fn record(p: Purse, head: Head, change: LogChange) -> Purse
    ensures { result ≡ record_after p head change }
{
    let log = match change {
        LogChange::Nothing => p.log,
        LogChange::Append => appended(p),
        LogChange::OldestOut => moved_down(p.log),
    };
    Purse {
        balance: head.balance,
        next: head.next,
        status: head.status,
        details: head.details,
        log,
        logged: head.logged,
    }
}

// The entry that a step hands out: the oldest one where it leaves the log, or an all-zero one.
fn handed_out(p: Purse, change: LogChange) -> Details
    ensures { result ≡ handed_out p change }
{
    match change {
        LogChange::Nothing | LogChange::Append => Details::default(),
        LogChange::OldestOut => oldest(p),
    }
}

// What the card answers: the record put together, and what it hands out.
pub(crate) fn answered(p: Purse, t: Turned) -> CardAnswer
    ensures { result ≡ answered_by p t }
{
    CardAnswer {
        answer: t.answer,
        purse: record(p, t.head, t.log),
        message: t.message,
        entry: handed_out(p, t.log),
    }
}
