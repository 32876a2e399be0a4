// Whether a bench's table and desk obey the rules: each record alone, then each message and each archive entry once, beside the one or
// two records that it names. Nothing is assumed of what is handed in: a count above its places is refused before any place is read.
#![tactic(auto)]

ghost use Rattle.std.specs.Prelude.{◌≡◌};
ghost use Rattle.rules.specs.Laid.{held_ok};
ghost use Rattle.table.specs.Lent.{lent_ok};

use desk::{Desk, Held};
use purse::Purse;
use table_entries::entries_ok;
use table_messages::messages_ok;
use table_records::records::records_ok;

// The whole, of a table and a desk that are lent apart, so that neither is copied.
pub fn lent_ok(table: &[Purse; 32], desk: &Desk) -> bool
    ensures { result ≡ lent_ok table.now desk.now }
{
    let purses = desk.purses;
    (1 <= purses)
        & (purses <= 32)
        & records_ok(table, purses)
        & messages_ok(table, &desk.ether, purses)
        & entries_ok(table, &desk.archive, purses)
}

// The same of what a bench holds.
pub fn held_ok(held: Held) -> bool
    ensures { result ≡ held_ok held }
{
    lent_ok(&held.table, &held.desk)
}
