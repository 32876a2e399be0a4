// Records one after the other: the first so many of a list's places as bytes, and so many records that bytes give, laid in the first places.
// Nothing is done where there are fewer places, or the bytes have no room or are not all there.
ghost use Rattle.std.specs.Prelude.{◌≡◌, length};
ghost use Rattle.bigendian.specs.Bytes.{put_first, get_first};

use crate::Part;

pub fn put_all<P: Part>(out: &mut [u8], at: usize, places: &[P], count: u16)
    ensures { out.new ≡ put_first P.bytes P.WIDTH (length places.now) places.now count out.old at }
{
    let n = usize::from(count);
    if places.len() < n || out.len().saturating_sub(at) < P::WIDTH * n {
        return;
    }
    for (i, record) in places[..n].iter().enumerate() {
        record.put(out, at + P::WIDTH * i);
    }
}

pub fn get_all<P: Part>(s: &[u8], at: usize, count: u16, places: &mut [P])
    ensures { places.new ≡ get_first P.value_at P.WIDTH places.old count s.now at }
{
    let n = usize::from(count);
    if places.len() < n || s.len().saturating_sub(at) < P::WIDTH * n {
        return;
    }
    for i in 0..n {
        places[i] = P::get(s, at + P::WIDTH * i);
    }
}
