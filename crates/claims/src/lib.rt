// The claims figure: what is owed to payers, over every matched pair, wherever its two entries stand. One pass over the entries of all logs and
// one over the archive; a pair is counted once, at its payer's entry.
#![tactic(auto)]

ghost use Rattle.std.specs.Prelude.{◌≡◌, true, map, ◌*◌, ◌≤◌, get_or, length};
ghost use Rattle.purse.specs.Lists.{every, total};
ghost use Rattle.purse.specs.Purse.{zero_purse};
ghost use Rattle.rules.specs.Laid.{held_claims};
ghost use Rattle.table_records.specs.Records.{entry_key, collected, record_of};
ghost use Rattle.claims.specs.Claims.{entry_by, log_entries, payee_logged, entry_claim, log_fits};

use desk::{Archive, Entry, Figure, Held};
use purse::{Details, Name, Purse, Refusal};
use table_records::apart::{Placed, is_among};
use table_records::places::place;
use table_records::records::in_log;

// The key of each archive place.
fn keys_of(places: &[Entry; 256]) -> [u32; 256]
    ensures { result ≡ map entry_key places.now }
{
    let mut keys: [u32; 256] = [0; 256];
    for i in 0..256 {
        keys[i] = places[i].key();
    }
    keys
}

// Where an entry's partner is looked for: the records, and the archive beside the key of each of its places.
#[derive(Clone, Copy)]
struct Books<'a> {
    table: &'a [Purse; 32],
    archive: &'a Archive,
    keys: &'a [u32; 256],
    ghost long: { length table.now ≡ 32 },
    ghost few: { archive.now.count ≤ 256 },
    ghost keyed: { keys.now ≡ map entry_key archive.now.places },
}

// Whether the payee of details has logged them too, in its log or in the archive.
fn has_logged(d: Details, books: Books) -> bool
    ensures { result ≡ payee_logged (record_of books.entry.table.now d.payee) books.entry.archive.now d }
{
    let table = books.table;
    let archive = books.archive;
    let keys = books.keys;
    let payee = place(d.payee);
    let many = archive.count as usize;
    let partner = Entry {
        by: d.payee,
        details: d,
    };
    in_log(&table[payee], d) || is_among(&partner, &archive.places[..many], &keys[..many])
}

// What an entry adds: its amount, where the purse that logged it is its payer, and its payee has logged it too.
#[tactic(auto, unfolding(crate::specs::Claims::claim_beside))]
fn claim_of(e: Entry, books: Books) -> u32
    ensures { result ≡ entry_claim books.entry.table.now books.entry.archive.now e }
{
    let d = e.details;
    if (e.by == d.payer) && has_logged(d, books) {
        d.amount.0
    } else {
        0
    }
}

// What the archive's entries add.
fn sum_of_archive(books: Books) -> u64
    ensures { result ≡ total (entry_claim books.entry.table.now books.entry.archive.now) (collected books.entry.archive.now) }
{
    let archive = books.archive;
    let many = archive.count as usize;
    let mut sum: u64 = 0;
    for e in &archive.places[..many] {
        sum += claim_of(*e, books) as u64;
    }
    sum
}

// What the entries of one log add.
fn sum_of_log(own: u8, log: &[Details], books: Books) -> u64
    requires { length log.now ≤ 8 }
    ensures value { result ≡ total (entry_claim books.entry.table.now books.entry.archive.now) (map (entry_by own) log.now) }
    ensures most { result ≤ 8 * 4_294_967_295 }
{
    let mut sum: u64 = 0;
    for d in log {
        let e = Entry {
            by: Name(own),
            details: *d,
        };
        sum += claim_of(e, books) as u64;
    }
    sum
}

// What the entries of the logs of that many purses add.
fn sum_of_logs(purses: u8, books: Books) -> u64
    requires { (purses ≤ 32) × (every purses (λ p. log_fits (get_or books.table.now p zero_purse)) ≡ true) }
    ensures { result ≡ total (entry_claim books.entry.table.now books.entry.archive.now) (log_entries purses books.entry.table.now) }
{
    let table = books.table;
    let mut sum: u64 = 0;
    for own in 0..purses {
        let p = &table[own as usize];
        let logged = p.logged as usize;
        sum += sum_of_log(own, &p.log[..logged], books);
    }
    sum
}

pub fn claims(held: Held) -> Figure
    ensures { result ≡ held_claims held }
{
    if table::lent_ok(&held.table, &held.desk) {
        let archive = &held.desk.archive;
        let keys = keys_of(&archive.places);
        let books = Books {
            table: &held.table,
            archive,
            keys: &keys,
        };
        let cards = sum_of_logs(held.desk.purses, books);
        let rest = sum_of_archive(books);
        Figure {
            answer: 0,
            claims: (cards + rest) as u32,
        }
    } else {
        Figure {
            answer: u8::from(Refusal::NotWellFormed),
            claims: 0,
        }
    }
}
