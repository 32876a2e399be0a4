// One record: what its running details and its log name and hold, and whether it is unused.
ghost use Rattle.std.specs.Prelude.{◌≡◌, take};
ghost use Rattle.purse.specs.Lists.{all, among};
ghost use Rattle.purse.specs.Details.{same_details};
ghost use Rattle.rules.specs.Bench.{kept};
ghost use Rattle.rules.specs.Laid.{is_zero_purse};
ghost use Rattle.table_records.specs.Records.{within, names_ok, holds, records_ok};

use crate::places::is_within;
use form::{is_log_unused, is_unused, well_formed};
use purse::{Details, Name, Purse};

// The used places of a log.
fn used(log: &[Details; 8], logged: u8) -> &[Details]
    ensures { result.now ≡ take logged log.now }
{
    let count = usize::from(logged);
    &log[..count.min(8)]
}

fn are_within(entries: &[Details], purses: u8) -> bool
    ensures { result ≡ all (within purses) entries.now }
{
    entries.iter().all(|d| is_within(*d, purses))
}

// Whether running details and log entries name purses of the table.
pub(crate) fn names_ok(p: &Purse, purses: u8) -> bool
    ensures { result ≡ names_ok purses p.now }
{
    ((p.status == 0) | is_within(p.details, purses)) & are_within(used(&p.log, p.logged), purses)
}

// Whether the details are in the log.
#[tactic(auto, unfolding(purse::specs::Details::same_details))]
pub fn in_log(p: &Purse, d: Details) -> bool
    ensures { result ≡ among same_details d (kept p.now) }
{
    used(&p.log, p.logged).iter().any(|e| d == *e)
}

// Whether the details are running or in the log.
#[tactic(auto, using(crate::proofs::Record::holds_parts), unfolding(purse::specs::Details::same_details))]
pub fn holds(p: &Purse, d: Details) -> bool
    ensures { result ≡ holds p.now d }
{
    ((p.status != 0) & (d == p.details)) | in_log(p, d)
}

// Whether each place of the record is zero.
pub(crate) fn is_zero(p: Purse) -> bool
    ensures { result ≡ is_zero_purse p }
{
    (p.balance.0 == 0)
        & (p.next.0 == 0)
        & (p.status == 0)
        & (p.logged == 0)
        & is_unused(p.details)
        & is_log_unused(&p.log)
}

fn are_zero(records: &[Purse]) -> bool
    ensures { result ≡ all is_zero_purse records.now }
{
    records.iter().all(|p| is_zero(*p))
}

// Each of the 32 records alone: those of the purses, then the unused ones.
pub fn records_ok(table: &[Purse; 32], purses: u8) -> bool
    ensures { result ≡ records_ok purses table.now }
{
    let count = usize::from(purses);
    let many = count.min(32);
    let mut ok = true;
    for i in 0..many {
        let p = table[i];
        ok &= well_formed(p, Name(i as u8)) & names_ok(&p, purses);
    }
    ok & are_zero(&table[many..])
}
