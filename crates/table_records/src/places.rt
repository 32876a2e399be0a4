// Places and names that must lie within a count.
ghost use Rattle.std.specs.Prelude.{◌≡◌};
ghost use Rattle.table_records.specs.Records.{place_of, key_of, within};

use purse::{Details, Name};

// The place that a name looks up.
pub fn place(name: Name) -> usize
    ensures { result ≡ place_of name }
{
    usize::from(name.0 % 32)
}

// A number that equal messages, and equal entries, have in common; most others differ in it.
#[tactic(auto, unfolding(crate::specs::Records::key_of))]
pub fn key(tag: u8, d: Details) -> u32
    ensures { result ≡ key_of tag d }
{
    let names = u64::from(d.payee.0) * 16_777_216
        + u64::from(d.payer.0) * 524_288
        + u64::from(tag) * 4_194_304;
    let rest = u64::from(d.payeeseq.0)
        + u64::from(d.payerseq.0) * 2_654_435_761
        + u64::from(d.amount.0) * 40_503;
    ((names + rest) % 4_294_967_296) as u32
}

// Whether both names are below the purse count.
#[tactic(auto, unfolding(crate::specs::Records::within))]
pub fn is_within(d: Details, purses: u8) -> bool
    ensures { result ≡ within purses d }
{
    (d.payer.0 < purses) & (d.payee.0 < purses)
}
