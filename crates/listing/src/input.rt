// The input's opening bytes: purse count, then 4 bytes a balance.
ghost use Rattle.std.specs.Prelude.{◌≡◌, ◌+◌, ◌*◌, ◌≤◌, length};
ghost use Rattle.purse.specs.Lists.{padded};
ghost use Rattle.listing.specs.Opening.{balances_at, balance_bytes, whole_opening, opening_in};

use crate::Opening;
use bigendian::number_at;

// How many balance bytes follow a purse count: none behind a count that opening refuses.
pub fn balance_bytes(count: u8) -> usize
    ensures value { result ≡ balance_bytes count }
    ensures upper_bound { result ≤ 128 }
{
    if count <= 32 {
        4 * usize::from(count)
    } else {
        0
    }
}

// Whether the first byte is a count that opening may take, and its balances are all there.
#[tactic(auto, unfolding(crate::specs::Opening::whole_opening))]
fn is_whole(input: &[u8]) -> bool
    ensures { result ≡ whole_opening input.now }
{
    input.first().is_some_and(|count| *count <= 32 && 1 + 4 * usize::from(*count) <= input.len())
}

// As many balances, one after the other.
fn balances(l: &[u8], count: usize) -> [u32; 32]
    requires { (count ≤ 32) × (1 + 4 * count ≤ length l.now) }
    ensures { result ≡ padded 32 0 (balances_at count l.now 1) }
{
    let mut all = [0; 32];
    for i in 0..count {
        all[i] = number_at(l, 1 + 4 * i);
    }
    all
}

// Bytes of any length and content.
#[tactic(auto, unfolding(crate::specs::Opening::whole_opening, crate::specs::Opening::balances_in, crate::specs::Opening::opening_in))]
pub fn read_opening(input: &[u8]) -> Opening
    ensures value { result ≡ opening_in input.now }
    ensures count_bound { result.count ≤ 32 }
{
    if !is_whole(input) {
        return Opening {
            count: 0,
            balances: [0; 32],
        };
    }
    let count = usize::from(input[0]);
    Opening {
        count,
        balances: balances(input, count),
    }
}
