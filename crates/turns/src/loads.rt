// Load: an idle purse's balance rises by an amount that comes from outside.
ghost use Rattle.std.specs.Prelude.{◌≡◌};
ghost use Rattle.turns.specs.Turns.{turned, turn_load};

use super::done::quiet;
use crate::{LogChange, Turned};
use purse::{Amount, Name, Refusal};
use refusals::Head;
use refusals::checks::check_load;

// The purse gets the amount; nothing is sent.
#[tactic(auto, using(refusals::proofs::Passed::load_passed, purse::proofs::Refusals::not_done), unfolding(crate::specs::Turns::turn_load))]
pub(crate) fn load(h: Head, own: Name, amount: Amount) -> Result<Turned, Refusal>
    ensures { turned h result ≡ turn_load h own amount }
{
    check_load(h, own, amount)?;
    let raised = Head {
        balance: Amount(h.balance.0 + amount.0),
        ..h
    };
    Ok(quiet(raised, LogChange::Nothing))
}
