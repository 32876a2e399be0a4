// The messages: each once, beside the records that it names.
#![tactic(auto)]

ghost use Rattle.std.specs.Prelude.{◌≡◌};
ghost use Rattle.purse.specs.Lists.{all};
ghost use Rattle.table_records.specs.Records.{message_alone, payee_ok, payer_ok, message_beside, message_in, messages_ok};

use desk::Ether;
use form::is_named;
use purse::{Message, Purse};
use table_records::apart::{are_apart, are_laid};
use table_records::places::{is_within, place};

// A message's kind and what its details name.
#[tactic(auto, unfolding(table_records::specs::Records::message_alone))]
fn message_alone(m: Message, purses: u8) -> bool
    ensures { result ≡ message_alone purses m }
{
    match m.kind {
        1..=3 => is_named(m.details) & is_within(m.details, purses),
        0 | 4..=255 => false,
    }
}

// A message beside the record of its payee.
#[tactic(auto, unfolding(table_records::specs::Records::payee_ok, purse::specs::Details::same_details))]
fn payee_ok(p: &Purse, m: Message) -> bool
    ensures { result ≡ payee_ok p.now m }
{
    let s = m.details.payeeseq.0;
    let used = (1 <= s) & (s < p.next.0); // the payee's own number
    match m.kind {
        3 => used & !((p.status == 2) & (m.details == p.details)),
        0..=2 | 4..=255 => used,
    }
}

// A message beside the record of its payer.
#[tactic(auto, unfolding(table_records::specs::Records::payer_ok, purse::specs::Details::same_details))]
fn payer_ok(p: &Purse, m: Message) -> bool
    ensures { result ≡ payer_ok p.now m }
{
    let s = m.details.payerseq.0;
    let used = (1 <= s) & (s < p.next.0); // the payer's own number
    match m.kind {
        0 => used,
        1 => true,
        2..=255 => used & !((p.status == 1) & (m.details == p.details)),
    }
}

#[tactic(auto, unfolding(table_records::specs::Records::message_beside))]
fn message_beside(payee: &Purse, payer: &Purse, m: Message, purses: u8) -> bool
    ensures { result ≡ message_beside purses payee.now payer.now m }
{
    message_alone(m, purses) & payee_ok(payee, m) & payer_ok(payer, m)
}

// A message beside the two records that it names.
fn is_beside(m: Message, table: &[Purse; 32], purses: u8) -> bool
    ensures { result ≡ message_in purses table.now m }
{
    let payee = place(m.details.payee);
    let payer = place(m.details.payer);
    message_beside(&table[payee], &table[payer], m, purses)
}

fn are_beside(standing: &[Message], table: &[Purse; 32], purses: u8) -> bool
    ensures { result ≡ all (message_in purses table.now) standing.now }
{
    standing.iter().all(|m| is_beside(*m, table, purses))
}

// The whole: the unused places, and those that stand.
pub fn messages_ok(table: &[Purse; 32], ether: &Ether, purses: u8) -> bool
    ensures { result ≡ messages_ok purses table.now ether.now }
{
    if !are_laid(&ether.places, ether.count) {
        return false;
    }
    let standing = &ether.places[..ether.count as usize];
    are_beside(standing, table, purses) && are_apart(standing)
}
