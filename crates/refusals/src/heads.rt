// The head of a record, read off it.
ghost use Rattle.std.specs.Prelude.{◌≡◌};
ghost use Rattle.refusals.specs.Heads.{head_of};

use crate::Head;
use purse::Purse;

impl From<Purse> for Head {
    ghost from_gives = { λ p head. head ≡ head_of p };

    fn from(p: Purse) -> Head {
        Head {
            balance: p.balance,
            next: p.next,
            details: p.details,
            status: p.status,
            logged: p.logged,
            most: p.ceiling(),
        }
    }
}
