// Bytes, counts of two bytes and numbers of four, put and read with the highest byte first, at any place of any list. What the bytes of a
// number, a list and a buffer are, and the laws of bytes put and read, stand in specs/ and proofs/.
#![tactic(auto)]

ghost use Rattle.std.specs.Prelude.{◌≡◌, length};
ghost use Rattle.bigendian.specs.Bytes.{put_in, byte, big, number_at, number_in, read_in};

// Bytes from a place on; nothing where they have no room.
fn put_bytes(out: &mut [u8], at: usize, bytes: &[u8])
    ensures { out.new ≡ put_in (length bytes.now) out.old at bytes.now }
{
    if at <= out.len() && bytes.len() <= out.len() - at {
        let end = at + bytes.len();
        out[at..end].copy_from_slice(bytes);
    }
}

// One byte; nothing where there is no such place.
pub fn put_byte(out: &mut [u8], at: usize, v: u8)
    ensures { out.new ≡ put_in 1 out.old at (byte v) }
{
    put_bytes(out, at, &[v]);
}

// A count in two bytes; nothing where they have no room.
#[tactic(auto, unfolding(crate::specs::Bytes::big))]
pub fn put_count(out: &mut [u8], at: usize, count: u16)
    ensures { out.new ≡ put_in 2 out.old at (big 2 count) }
{
    put_bytes(out, at, &count.to_be_bytes());
}

// A number in four bytes, likewise.
pub fn put_number(out: &mut [u8], at: usize, number: u32)
    ensures { out.new ≡ put_in 4 out.old at (big 4 number) }
{
    put_bytes(out, at, &number.to_be_bytes());
}

// A count of two bytes; 0 where they are not all there.
#[tactic(auto, using(crate::proofs::Numbers::read_there, crate::proofs::Numbers::read_missing), unfolding(crate::specs::Bytes::number_at))]
pub fn count_at(l: &[u8], at: usize) -> u16
    ensures { result ≡ read_in (number_at 2) 2 0 l.now at }
{
    if l.len().saturating_sub(at) < 2 {
        return 0;
    }
    u16::from_be_bytes([l[at], l[at + 1]])
}

// A number of four bytes, likewise.
#[tactic(auto, using(crate::proofs::Numbers::read_there, crate::proofs::Numbers::read_missing), unfolding(crate::specs::Bytes::number_at, crate::specs::Bytes::number_in))]
pub fn number_at(l: &[u8], at: usize) -> u32
    ensures { result ≡ number_in l.now at }
{
    if l.len().saturating_sub(at) < 4 {
        return 0;
    }
    u32::from_be_bytes([l[at], l[at + 1], l[at + 2], l[at + 3]])
}
