// An event at a lent desk: what is seen of it there; then one message and one entry are read where they stand, and written there, with the
// counts; of a loss alone the messages are moved.
#![tactic(auto)]

ghost use Rattle.std.specs.Prelude.{◌≡◌};
ghost use Rattle.rules.specs.Events.{decoded};
ghost use Rattle.asks.specs.Asks.{seen_at};
ghost use Rattle.deeds.specs.Deeds.{deed_at, desk_after};

use asks::Seen;
use deeds::{Deed, behind, delivered, done_by, lost, seen_by};
use desk::Desk;
use purse::Purse;

// What is seen of an event at the desk: one message is read, at the place that it delivers.
#[tactic(auto, using(crate::proofs::Written::below, crate::proofs::Written::seen_is))]
pub fn seen_at(desk: &Desk, event: &[u8]) -> Seen
    ensures { result ≡ seen_at desk.now (decoded event.now) }
{
    let from = delivered(event);
    seen_by(
        desk.purses,
        desk.ether.count,
        desk.archive.count,
        desk.ether.places[from],
        event,
    )
}

// What an event at its record p writes, by what is seen of it, written at the desk; the record is the caller's to store.
#[tactic(auto, using(crate::proofs::Written::below, crate::proofs::Written::deed_is, crate::proofs::Written::stays, crate::proofs::Written::loses))]
pub fn written_at(desk: &mut Desk, p: Purse, seen: Seen, event: &[u8]) -> Deed
    ensures { (result ≡ deed_at p seen desk.old (decoded event.now))
        × (desk.new ≡ desk_after desk.old (deed_at p seen desk.old (decoded event.now))) }
{
    let end = behind(desk.ether.count);
    let stop = behind(desk.archive.count);
    let d = done_by(
        p,
        seen,
        desk.ether.places[end],
        desk.archive.places[stop],
        event,
    );
    desk.purses = d.purses;
    desk.ether.places[end] = d.message;
    desk.ether.count = d.messages;
    desk.archive.places[stop] = d.entry;
    desk.archive.count = d.entries;
    if d.loses {
        desk.ether = lost(desk.ether, d.place);
    }
    d
}
