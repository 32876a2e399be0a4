// The archive's entries: each once, beside the record of the purse that logged it.
#![tactic(auto)]

ghost use Rattle.std.specs.Prelude.{◌≡◌};
ghost use Rattle.purse.specs.Lists.{all};
ghost use Rattle.table_records.specs.Records.{entry_alone, entry_beside, entry_in, entries_ok};

use desk::{Archive, Entry};
use form::is_entry;
use purse::Purse;
use table_records::apart::{are_apart, are_laid};
use table_records::places::{is_within, place};
use table_records::records::holds;

// The purses that an entry names.
#[tactic(auto, unfolding(table_records::specs::Records::entry_alone))]
fn entry_alone(e: Entry, purses: u8) -> bool
    ensures { result ≡ entry_alone purses e }
{
    (e.by.0 < purses) & is_within(e.details, purses)
}

// An entry beside the record of the purse that logged it.
#[tactic(auto, unfolding(table_records::specs::Records::entry_beside))]
fn entry_beside(p: &Purse, e: Entry, purses: u8) -> bool
    ensures { result ≡ entry_beside purses p.now e }
{
    entry_alone(e, purses) & is_entry(e.details, e.by, p.next) & !holds(p, e.details)
}

fn is_beside(e: Entry, table: &[Purse; 32], purses: u8) -> bool
    ensures { result ≡ entry_in purses table.now e }
{
    let by = place(e.by);
    entry_beside(&table[by], e, purses)
}

fn are_beside(collected: &[Entry], table: &[Purse; 32], purses: u8) -> bool
    ensures { result ≡ all (entry_in purses table.now) collected.now }
{
    collected.iter().all(|e| is_beside(*e, table, purses))
}

// The whole: the unused places, and the entries collected.
pub fn entries_ok(table: &[Purse; 32], archive: &Archive, purses: u8) -> bool
    ensures { result ≡ entries_ok purses table.now archive.now }
{
    if !are_laid(&archive.places, archive.count) {
        return false;
    }
    let collected = &archive.places[..archive.count as usize];
    are_beside(collected, table, purses) && are_apart(collected)
}
