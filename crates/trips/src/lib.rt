// Writing and reading undo each other: a bench written and its image read back, an image read and its bench written back. The contracts are
// the round trips, for any bench and any bytes of the code.
#![tactic(auto)]

mod fits; // fits.rt: each number of a bench fits its bytes

ghost use Rattle.std.specs.Prelude.{◌≡◌};
ghost use Rattle.layout.specs.Calls.{held_buffer};
ghost use Rattle.trips.specs.Trips.{written_read, read_written, read_buffer};

use crate::fits::held_fits;
use desk::{Answered, Held};
use layout::Written;
use reading::read;
use writing::write;

// A bench written into a buffer, and the bytes just written read back, over what another bench held.
pub fn written_then_read(held: Held, other: Held, out: &mut [u8]) -> Answered
    ensures { (result ≡ written_read held other out.old) × (out.new ≡ held_buffer held out.old) }
{
    held_fits(&held);
    let w = write(held, out);
    if w.answer == 0 {
        read(other, &out[..w.length])
    } else {
        Answered {
            answer: w.answer,
            held: other,
        }
    }
}

// An image read, and the bench that it gives written back into a buffer.
pub fn read_then_written(other: Held, bytes: &[u8], out: &mut [u8]) -> Written
    ensures { (result ≡ read_written other bytes.now out.old) × (out.new ≡ read_buffer other bytes.now out.old) }
{
    let a = read(other, bytes);
    if a.answer == 0 {
        write(a.held, out)
    } else {
        Written {
            answer: a.answer,
            length: 0,
        }
    }
}
