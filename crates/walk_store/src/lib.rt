// What was answered by value, stored in a lent table and a lent desk. "The bench owns a table of 32 purse records, lent to each call."
#![tactic(auto)]

ghost use Rattle.std.specs.Prelude.{◌≡◌};
ghost use Rattle.walk_store.specs.Stored.{stored_of};

use desk::{Answered, Desk};
use purse::{Purse, Refusal};

// What was answered by value is stored in a lent table of 32 records and a lent desk; another length is refused, and both stay.
#[tactic(auto, unfolding(crate::specs::Stored::stored_of))]
pub fn stored(table: &mut [Purse], desk: &mut Desk, by: Answered) -> u8
    ensures { (result ≡ (stored_of table.old desk.old by).answer)
        × (table.new ≡ (stored_of table.old desk.old by).held.table)
        × (desk.new ≡ (stored_of table.old desk.old by).held.desk) }
{
    if table.len() != 32 {
        return Refusal::NotWellFormed.into();
    }
    let records = by.held.table; // out of `by` first: an opening's stack is less by 12 KB
    table.copy_from_slice(&records);
    *desk = by.held.desk;
    by.answer
}
