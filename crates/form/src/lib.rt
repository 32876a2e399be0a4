// The test of the rules about one purse alone, and of the payment details that it holds: its head and its log by value, place by place.
#![tactic(auto)]

ghost use Rattle.std.specs.Prelude.{◌≡◌, ◌&&◌, ◌||◌, not, ◌≤◌};
ghost use Rattle.purse.specs.Lists.{all};
ghost use Rattle.purse.specs.Details.{same_details, named, as_payer, as_payee, entry_ok, absent};
ghost use Rattle.purse.specs.Purse.{ceiling, idle_ok, busy_ok, log_ok, well_formed};
ghost use Rattle.form.specs.Form.{headed, logging, unused, head_ok};

use purse::{Details, Name, Purse, Seq};
use refusals::Head;
use refusals::checks::is_legal;

// Two different purses, names 0 to 31, and a legal amount.
#[tactic(auto, unfolding(purse::specs::Details::named))]
pub fn is_named(d: Details) -> bool
    ensures { result ≡ named d }
{
    (d.payer.0 <= Name::LAST)
        & (d.payee.0 <= Name::LAST)
        & (d.payer != d.payee)
        & is_legal(d.amount)
}

// The purse is the payer, with a number that it has used.
#[tactic(auto, unfolding(purse::specs::Details::as_payer))]
pub fn is_payer(d: Details, own: Name, next: Seq) -> bool
    ensures { result ≡ as_payer own next d }
{
    (d.payer == own) & (1 <= d.payerseq.0) & (d.payerseq.0 < next.0)
}

// The purse is the payee, with a number that it has used.
#[tactic(auto, unfolding(purse::specs::Details::as_payee))]
pub fn is_payee(d: Details, own: Name, next: Seq) -> bool
    ensures { result ≡ as_payee own next d }
{
    (d.payee == own) & (1 <= d.payeeseq.0) & (d.payeeseq.0 < next.0)
}

// What the purse may have logged.
#[tactic(auto, unfolding(purse::specs::Details::entry_ok))]
pub fn is_entry(d: Details, own: Name, next: Seq) -> bool
    ensures { result ≡ entry_ok own next d }
{
    is_named(d) & (is_payer(d, own, next) | is_payee(d, own, next))
}

// Unused details: every field zero.
#[tactic(auto, unfolding(purse::specs::Details::same_details))]
pub fn is_unused(d: Details) -> bool
    ensures { result ≡ unused d }
{
    d == Details::default()
}

// A log without entries, or the rest of one: each of its places unused.
pub fn is_log_unused(log: &[Details]) -> bool
    ensures { result ≡ all unused log.now }
{
    log.iter().all(|e| is_unused(*e))
}

// What the status asks: zero details of an idle purse, its own side and its money of a busy one.
fn is_status_ok(h: Head, own: Name) -> bool
    requires { h.most.0 ≡ ceiling (headed h) }
    ensures { result ≡ (idle_ok (headed h) || busy_ok own (headed h)) }
{
    let d = h.details;
    let running = is_named(d) & (h.logged < Purse::LOG_PLACES);
    match h.status {
        0 => is_unused(d),
        1 => running & ((d.amount.0 <= h.balance.0) & is_payer(d, own, h.next)),
        2 => {
            let after = h.balance.0 as u64 + d.amount.0 as u64;
            running & ((after <= h.most.0 as u64) & is_payee(d, own, h.next))
        }
        3 => running & is_payer(d, own, h.next),
        4..=255 => false,
    }
}

// The rules that read no log.
#[tactic(auto, unfolding(crate::specs::Form::head_ok))]
fn is_head_ok(h: Head, own: Name) -> bool
    requires { h.most.0 ≡ ceiling (headed h) }
    ensures { result ≡ head_ok own (headed h) }
{
    (h.balance.0 <= h.most.0)
        & (1 <= h.next.0)
        & (h.logged <= Purse::LOG_PLACES)
        & is_status_ok(h, own)
}

// A place of the log that is used: an entry, and not the running details.
#[tactic(auto, unfolding(purse::specs::Details::same_details))]
fn is_place_ok(e: Details, running: Details, next: Seq, own: Name) -> bool
    ensures { result ≡ (entry_ok own next e && not (same_details running e)) }
{
    is_entry(e, own, next) & (running != e)
}

// None of the first n places is d.
fn is_absent(log: [Details; 8], n: usize, d: Details) -> bool
    requires { n ≤ 8 }
    ensures { result ≡ absent log d n }
{
    let mut ok = true;
    for j in 0..n {
        ok &= log[j] != d;
    }
    ok
}

// The used places, each at no place before it; then the others, unused. By value: over a lent log a card's step would go a thousand bytes
// deeper on the stack.
fn is_log_ok(log: [Details; 8], logged: u8, running: Details, next: Seq, own: Name) -> bool
    ensures { result ≡ log_ok own (logging log logged running next) }
{
    let used = usize::from(logged.min(Purse::LOG_PLACES));
    let mut ok = true;
    for i in 0..used {
        let e = log[i];
        ok &= is_place_ok(e, running, next, own) & is_absent(log, i, e);
    }
    ok & is_log_unused(&log[used..])
}

// The rules about one purse alone, `own` its name. A log without entries is asked for its unused places alone.
pub fn well_formed(p: Purse, own: Name) -> bool
    ensures { result ≡ well_formed own p }
{
    let head = is_head_ok(Head::from(p), own);
    if p.logged == 0 {
        head & is_log_unused(&p.log)
    } else {
        head & is_log_ok(p.log, p.logged, p.details, p.next, own)
    }
}
