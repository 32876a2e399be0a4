// Stored images, over a table lent to each call: an image is written from the table copied out, or read by value and stored in the lent table.
#![tactic(auto)]

ghost use Rattle.std.specs.Prelude.{◌≡◌};
ghost use Rattle.layout.specs.Calls.{held_write, held_buffer, held_read};
ghost use Rattle.walk_table.specs.Lent.{held};

use desk::{Answered, Desk, Held};
use image::{read, write};
use layout::Written;
use purse::Purse;
use walk_store::stored;
use walk_table::copied;

// The image of the bench, at the start of a buffer, over a table and a desk that are both lent.
#[tactic(auto, using(crate::proofs::Whole::write_lent, crate::proofs::Whole::buffer_lent))]
#[unsafe(no_mangle)]
pub extern "C" fn prs_write(table: &[Purse], desk: &Desk, out: &mut [u8]) -> Written
    ensures { (result ≡ held_write (held table.now desk.now) out.old)
        × (out.new ≡ held_buffer (held table.now desk.now) out.old) }
{
    write(
        Held {
            table: copied(table),
            desk: *desk,
        },
        out,
    )
}

// The bench that an image gives, over a table and a desk that are both lent.
#[tactic(auto, using(crate::proofs::Whole::read_lent))]
#[unsafe(no_mangle)]
pub extern "C" fn prs_read(table: &mut [Purse], desk: &mut Desk, bytes: &[u8]) -> u8
    ensures { (result ≡ (held_read (held table.old desk.old) bytes.now).answer)
        × (table.new ≡ (held_read (held table.old desk.old) bytes.now).held.table)
        × (desk.new ≡ (held_read (held table.old desk.old) bytes.now).held.desk) }
{
    let by = read_over(copied(table), *desk, bytes);
    stored(table, desk, by)
}

// A reading over a table and a desk, not over what both make: its stack is less by 18 KB.
fn read_over(table: [Purse; 32], desk: Desk, bytes: &[u8]) -> Answered
    ensures { result ≡ held_read (held table desk) bytes.now }
{
    read(Held { table, desk }, bytes)
}
