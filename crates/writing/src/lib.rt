// A whole bench written as a stored image. What an image is, and which refusal comes first, stands in the crate layout.
#![tactic(auto)]

ghost use Rattle.std.specs.Prelude.{◌≡◌, true, ◌≤◌, length};
ghost use Rattle.rules.specs.Laid.{held_ok};
ghost use Rattle.bigendian.specs.Bytes.{put};
ghost use Rattle.layout.specs.Widths.{head_width};
ghost use Rattle.layout.specs.Head.{head_bytes};
ghost use Rattle.layout.specs.Image.{image_of};
ghost use Rattle.layout.specs.Calls.{written_of, held_write, held_buffer};

use bigendian::{put_byte, put_count};
use desk::{Desk, Held};
use layout::widths::{
    BYTE_WIDTH, ENTRIES_PLACE, HEAD_WIDTH, MESSAGE_WIDTH, MESSAGES_PLACE, PURSE_WIDTH,
    PURSES_PLACE, VERSION_PLACE,
};
use layout::{VERSION, Written, image_length};
use parts::put_all;
use purse::{Refusal, refuse_if};
use table::lent_ok;

// Mark, version, purse count, message count, archive count.
fn put_head(out: &mut [u8], desk: &Desk)
    requires { head_width ≤ length out.old }
    ensures { out.new ≡ put out.old 0 (head_bytes desk.now.purses desk.now.ether.count desk.now.archive.count) }
{
    put_byte(out, 0, 0x50);
    put_byte(out, BYTE_WIDTH, 0x52);
    put_byte(out, 2 * BYTE_WIDTH, 0x53);
    put_count(out, VERSION_PLACE, VERSION);
    put_byte(out, PURSES_PLACE, desk.purses);
    put_count(out, MESSAGES_PLACE, desk.ether.count);
    put_count(out, ENTRIES_PLACE, desk.archive.count);
}

// A well-formed bench, into a buffer that is long enough.
fn put_bench(out: &mut [u8], held: &Held)
    requires { (held_ok held.now ≡ true) × (length (image_of held.now) ≤ length out.old) }
    ensures { out.new ≡ put out.old 0 (image_of held.now) }
{
    let purses = u16::from(held.desk.purses);
    let messages = held.desk.ether.count;
    let messages_from = HEAD_WIDTH + PURSE_WIDTH * usize::from(purses);
    let entries_from = messages_from + MESSAGE_WIDTH * usize::from(messages);
    put_head(out, &held.desk);
    put_all(out, HEAD_WIDTH, &held.table, purses);
    put_all(out, messages_from, &held.desk.ether.places, messages);
    put_all(
        out,
        entries_from,
        &held.desk.archive.places,
        held.desk.archive.count,
    );
}

// The image of a bench at the start of a buffer, and its length, or why there is none.
#[tactic(auto, using(crate::proofs::Calls::image_long, crate::proofs::Calls::put_at_start), unfolding(layout::specs::Calls::held_write, layout::specs::Calls::held_buffer, layout::specs::Calls::write_number))]
fn put_image(held: &Held, out: &mut [u8]) -> Result<usize, Refusal>
    ensures { (written_of result ≡ held_write held.now out.old) × (out.new ≡ held_buffer held.now out.old) }
{
    refuse_if(!lent_ok(&held.table, &held.desk), Refusal::NotWellFormed)?;
    let length = image_length(
        held.desk.purses,
        held.desk.ether.count,
        held.desk.archive.count,
    );
    refuse_if(out.len() < length, Refusal::BufferTooShort)?;
    put_bench(out, held);
    Ok(length)
}

// The image of a bench at the start of a buffer; output past the image is untouched, and a refusal writes nothing.
pub fn write(held: Held, out: &mut [u8]) -> Written
    ensures { (result ≡ held_write held out.old) × (out.new ≡ held_buffer held out.old) }
{
    match put_image(&held, out) {
        Ok(length) => Written { answer: 0, length },
        Err(why) => Written {
            answer: u8::from(why),
            length: 0,
        },
    }
}
