// The two starts: a purse becomes payer or payee.
ghost use Rattle.std.specs.Prelude.{◌≡◌};
ghost use Rattle.turns.specs.Turns.{begun_at, from_details, to_details, turned, turn_from, turn_to};

use super::done::{quiet, sends};
use crate::{LogChange, Turned};
use purse::{Amount, Details, Message, Name, Refusal, Seq};
use refusals::Head;
use refusals::checks::{check_from, check_to};

// Busy with a transfer of the purse's next number, which grows by 1.
fn begun(h: Head, status: u8, details: Details) -> Head
    requires { h.next.0 ≡ 4294967295 → ⊥ }
    ensures { result ≡ begun_at status details h }
{
    Head {
        next: Seq(h.next.0 + 1),
        status,
        details,
        ..h
    }
}

// The details of a payer, with its next number.
fn from_details(h: Head, own: Name, other: Name, seq: Seq, amount: Amount) -> Details
    ensures { result ≡ from_details h own other seq amount }
{
    Details {
        payer: own,
        payerseq: h.next,
        payee: other,
        payeeseq: seq,
        amount,
    }
}

// The details of a payee, with its next number.
fn to_details(h: Head, own: Name, other: Name, seq: Seq, amount: Amount) -> Details
    ensures { result ≡ to_details h own other seq amount }
{
    Details {
        payer: other,
        payerseq: seq,
        payee: own,
        payeeseq: h.next,
        amount,
    }
}

// The purse becomes payer; it waits for the request.
#[tactic(auto, using(refusals::proofs::Passed::from_passed, purse::proofs::Refusals::not_done), unfolding(crate::specs::Turns::turn_from))]
pub(crate) fn start_from(
    h: Head,
    own: Name,
    other: Name,
    seq: Seq,
    amount: Amount,
) -> Result<Turned, Refusal>
    ensures { turned h result ≡ turn_from h own other seq amount }
{
    check_from(h, own, other, amount)?;
    let details = from_details(h, own, other, seq, amount);
    Ok(quiet(begun(h, 1, details), LogChange::Nothing))
}

// The purse becomes payee; it sends the request and waits for the value.
#[tactic(auto, using(refusals::proofs::Passed::to_passed, purse::proofs::Refusals::not_done), unfolding(crate::specs::Turns::turn_to))]
pub(crate) fn start_to(
    h: Head,
    own: Name,
    other: Name,
    seq: Seq,
    amount: Amount,
) -> Result<Turned, Refusal>
    ensures { turned h result ≡ turn_to h own other seq amount }
{
    check_to(h, own, other, amount)?;
    let details = to_details(h, own, other, seq, amount);
    let request = Message { kind: 1, details };
    Ok(sends(begun(h, 2, details), request))
}
