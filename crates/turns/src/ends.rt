// Abort and collect: a purse that is stopped is idle again, its running details logged where money may be under way; the oldest log entry
// leaves the purse.
ghost use Rattle.std.specs.Prelude.{◌≡◌, ◌<◌};
ghost use Rattle.turns.specs.Turns.{stopped_at, aborted_at, turned, turn_abort, turn_collect};

use super::done::{idle, quiet};
use crate::{LogChange, Turned};
use purse::{Name, Refusal};
use refusals::Head;
use refusals::checks::{check_abort, check_collect};

// Idle, and the running details to the log.
fn stop(h: Head) -> Turned
    requires { h.logged < 8 }
    ensures { result ≡ stopped_at h }
{
    let stopped = Head {
        logged: h.logged + 1,
        ..idle(h, h.balance)
    };
    quiet(stopped, LogChange::Append)
}

// An idle purse stays as it is; from epr nothing is logged, from epv and epa the details are.
fn quit(h: Head) -> Turned
    requires { (h.status ≡ 0 → ⊥) → h.logged < 8 }
    ensures { result ≡ aborted_at h }
{
    match h.status {
        0 => quiet(h, LogChange::Nothing),
        1 => quiet(idle(h, h.balance), LogChange::Nothing),
        2..=255 => stop(h),
    }
}

// A purse that is stopped: idle again, whatever it was busy with.
#[tactic(auto, using(refusals::proofs::Passed::abort_passed, purse::proofs::Refusals::not_done), unfolding(crate::specs::Turns::turn_abort))]
pub(crate) fn abort(h: Head, own: Name) -> Result<Turned, Refusal>
    ensures { turned h result ≡ turn_abort h own }
{
    check_abort(h, own)?;
    Ok(quit(h))
}

// The oldest log entry leaves the purse.
#[tactic(auto, using(refusals::proofs::Passed::collect_passed, purse::proofs::Refusals::not_done), unfolding(crate::specs::Turns::turn_collect))]
pub(crate) fn collect(h: Head, own: Name) -> Result<Turned, Refusal>
    ensures { turned h result ≡ turn_collect h own }
{
    check_collect(h, own)?;
    let taken = Head {
        logged: h.logged - 1,
        ..h
    };
    Ok(quiet(taken, LogChange::OldestOut))
}
