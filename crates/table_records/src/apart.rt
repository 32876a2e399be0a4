// The 256 places of the ether and of the archive: the used ones apart, the unused ones zero.
ghost use Rattle.std.specs.Prelude.{◌≡◌, true, ℕ, Bool, eqb};
ghost use Rattle.purse.specs.Lists.{all, among};
ghost use Rattle.rules.specs.Laid.{places_ok, is_zero_message, is_zero_entry};
ghost use Rattle.table_records.specs.Records.{message_key, entry_key};
ghost use Rattle.table_records.specs.Placed.{found, apart, message_alike, entry_alike};

use crate::places::key;
use desk::Entry;
use purse::Message;

// What stands in a place. Equal ones have the same key; most others differ in it.
pub trait Placed: Copy + PartialEq {
    ghost key_of: { Self → ℕ };

    ghost is_zero: { Self → Bool };

    fn key(&self) -> u32
        ensures { result ≡ key_of self.now };

    fn is_unused(&self) -> bool
        ensures { result ≡ is_zero self.now };

    ghost alike: { (x y : Self) → Self.eq x y ≡ true → key_of x ≡ key_of y };
}

impl Placed for Message {
    ghost key_of = { message_key };

    ghost is_zero = { is_zero_message };

    ghost alike = { message_alike };

    fn key(&self) -> u32 {
        key(self.kind, self.details)
    }

    #[tactic(auto, unfolding(rules::specs::Laid::is_zero_message, purse::specs::Details::same_message, purse::specs::Details::same_details))]
    fn is_unused(&self) -> bool {
        *self == Message::default()
    }
}

impl Placed for Entry {
    ghost key_of = { entry_key };

    ghost is_zero = { is_zero_entry };

    ghost alike = { entry_alike };

    fn key(&self) -> u32 {
        key(self.by.0, self.details)
    }

    #[tactic(auto, unfolding(rules::specs::Laid::is_zero_entry, desk::specs::Desk::same_entry, purse::specs::Details::same_details))]
    fn is_unused(&self) -> bool {
        *self == Entry::default()
    }
}

// Whether the key is among these. There is no branch, so that many are compared at a time.
fn is_key_among(key: u32, keys: &[u32]) -> bool
    ensures { result ≡ among eqb key keys.now }
{
    let mut hit = false;
    for k in keys {
        hit |= key == *k;
    }
    hit
}

// Whether x is among the used places, whose keys these are: they are looked through only where its key is found.
pub fn is_among<T: Placed>(x: &T, used: &[T], keys: &[u32]) -> bool
    ensures { result ≡ found T.key_of T.eq x.now used.now keys.now }
{
    is_key_among(x.key(), keys) && used.contains(x)
}

// Whether the used places are 256 at most, and no two of them are equal.
pub fn are_apart<T: Placed>(used: &[T]) -> bool
    ensures { result ≡ apart T.eq used.now }
{
    if 256 < used.len() {
        return false;
    }
    let mut keys: [u32; 256] = [0; 256];
    for i in 0..used.len() {
        let x = &used[i];
        if is_among(x, &used[..i], &keys[..i]) {
            return false;
        }
        keys[i] = x.key();
    }
    true
}

// Whether each place is unused. There is no way out before the last: most calls go through them all, and are quicker so.
fn are_unused<T: Placed>(places: &[T]) -> bool
    ensures { result ≡ all T.is_zero places.now }
{
    let mut ok = true;
    for x in places {
        ok &= x.is_unused();
    }
    ok
}

// Whether there are 256 places, the count within them, and the places behind it unused.
pub fn are_laid<T: Placed>(places: &[T], count: u16) -> bool
    ensures { result ≡ places_ok T.is_zero 256 count places.now }
{
    let count = usize::from(count);
    (places.len() == 256) && (count <= 256) && are_unused(&places[count..])
}
