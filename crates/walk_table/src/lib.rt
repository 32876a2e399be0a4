// The records of a lent table, all of them: copied out to be worked on by value, and tested. "The bench owns a table of 32 purse records, lent to
// each call."
#![tactic(auto)]

ghost use Rattle.std.specs.Prelude.{◌≡◌};
ghost use Rattle.rules.specs.Laid.{held_ok};
ghost use Rattle.walk_table.specs.Lent.{held, copied_of};

use desk::Desk;
use purse::Purse;
use table::lent_ok;

// The records of a lent table of 32. For another length a table of unused records, which breaks the rules.
#[tactic(auto, unfolding(crate::specs::Lent::copied_of))]
pub fn copied(table: &[Purse]) -> [Purse; 32]
    ensures { result ≡ copied_of table.now }
{
    let mut all = [Purse::default(); 32];
    if table.len() == 32 {
        all.copy_from_slice(table);
    }
    all
}

// Whether a lent table and a desk obey the rules. A table of another length than 32 does not, and neither does its copy.
#[tactic(auto, using(crate::proofs::Whole::ok_lent))]
pub fn table_ok(table: &[Purse], desk: &Desk) -> bool
    ensures { result ≡ held_ok (held table.now desk.now) }
{
    lent_ok(&copied(table), desk)
}
