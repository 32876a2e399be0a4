// A message delivered: the one that the purse waits for, or refused.
ghost use Rattle.std.specs.Prelude.{◌≡◌, ◌+◌, ◌≤◌};
ghost use Rattle.turns.specs.Turns.{paid_at, received_at, settled_at, turned, turn_deliver};

use super::done::{idle, quiet, sends};
use crate::{LogChange, Turned};
use purse::{Amount, Message, Name, Refusal};
use refusals::Head;
use refusals::checks::check_deliver;

// A request: the balance falls, and the value is sent.
fn pay(h: Head) -> Turned
    requires { h.details.amount.0 ≤ h.balance.0 }
    ensures { result ≡ paid_at h }
{
    let details = h.details;
    let balance = Amount(h.balance.0 - details.amount.0);
    let value = Message { kind: 2, details };
    sends(
        Head {
            balance,
            status: 3,
            ..h
        },
        value,
    )
}

// A value: the balance rises, and the acknowledge is sent.
fn receive(h: Head) -> Turned
    requires { h.balance.0 + h.details.amount.0 ≤ h.most.0 }
    ensures { result ≡ received_at h }
{
    let details = h.details;
    let balance = Amount(h.balance.0 + details.amount.0);
    let acknowledge = Message { kind: 3, details };
    sends(idle(h, balance), acknowledge)
}

// An acknowledge: idle.
fn settle(h: Head) -> Turned
    ensures { result ≡ settled_at h }
{
    quiet(idle(h, h.balance), LogChange::Nothing)
}

// The purse gets a message; one that it does not wait for is refused.
#[tactic(auto, using(refusals::proofs::Passed::pay_passed, refusals::proofs::Passed::get_passed, purse::proofs::Refusals::not_done), unfolding(crate::specs::Turns::turn_deliver))]
pub(crate) fn deliver(h: Head, own: Name, m: Message) -> Result<Turned, Refusal>
    ensures { turned h result ≡ turn_deliver h own m }
{
    check_deliver(h, own, m)?;
    Ok(match m.kind {
        1 => pay(h),
        2 => receive(h),
        0 | 3..=255 => settle(h), // of these `check_deliver` lets 3 by, the acknowledge
    })
}
