// What a step makes of a head: refused or done, and the purse idle again.
ghost use Rattle.std.specs.Prelude.{◌≡◌};
ghost use Rattle.purse.specs.Details.{zero_message};
ghost use Rattle.purse.specs.Refusals.{number_of};
ghost use Rattle.turns.specs.declared.LogChange.TheVariants.{Nothing};
ghost use Rattle.turns.specs.Turns.{refused_at, done_at, idle_at};

use crate::{LogChange, Turned};
use purse::{Amount, Details, Message, Refusal};
use refusals::Head;

// Refused: the head as it was, the log too, and nothing sent.
pub(crate) fn refused(head: Head, why: Refusal) -> Turned
    ensures { result ≡ refused_at (number_of why) head }
{
    Turned {
        answer: u8::from(why),
        head,
        log: LogChange::Nothing,
        message: Message::default(),
    }
}

// Done, with a message to send; the log stays.
pub(crate) fn sends(head: Head, message: Message) -> Turned
    ensures { result ≡ done_at head Nothing message }
{
    Turned {
        answer: 0,
        head,
        log: LogChange::Nothing,
        message,
    }
}

// Done, with nothing sent.
pub(crate) fn quiet(head: Head, log: LogChange) -> Turned
    ensures { result ≡ done_at head log zero_message }
{
    Turned {
        answer: 0,
        head,
        log,
        message: Message::default(),
    }
}

// The purse idle, with that balance.
pub(crate) fn idle(h: Head, balance: Amount) -> Head
    ensures { result ≡ idle_at balance h }
{
    Head {
        balance,
        status: 0,
        details: Details::default(),
        ..h
    }
}
