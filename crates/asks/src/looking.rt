// Where an event looks: the record that it means, the message that it delivers, and what its tests see of the desk.
ghost use Rattle.std.specs.Prelude.{◌≡◌};
ghost use Rattle.asks.specs.Asks.{place_in, place_of, delivered_at, within, seen_with};

use crate::Seen;
use purse::{Message, Name};
use rules::Event;

// The place of a name in the table of 32; 0 for a name above 31.
fn place_in(name: Name) -> usize
    ensures { result ≡ place_in name }
{
    if name.0 <= Name::LAST {
        usize::from(name.0)
    } else {
        0
    }
}

// The record that an event means, where that many purses stand: the one that it names, or the next free one; 0 where it means none.
#[tactic(auto, unfolding(crate::specs::Asks::place_of))]
fn place_of(purses: u8, event: Event) -> usize
    ensures { result ≡ place_of purses event }
{
    match event {
        Event::Malformed | Event::Lose { .. } => 0,
        Event::StartFrom { purse, .. }
        | Event::StartTo { purse, .. }
        | Event::Deliver { purse, .. }
        | Event::Abort { purse }
        | Event::Collect { purse }
        | Event::Load { purse, .. } => place_in(purse),
        Event::Issue { .. } => place_in(Name(purses)),
    }
}

// The place of the message that an event delivers; past the last place where it delivers none.
#[tactic(auto, unfolding(crate::specs::Asks::delivered_at))]
pub fn delivered_at(event: Event) -> usize
    ensures { result ≡ delivered_at event }
{
    match event {
        Event::Deliver { place, .. } => place as usize,
        Event::Malformed
        | Event::StartFrom { .. }
        | Event::StartTo { .. }
        | Event::Abort { .. }
        | Event::Lose { .. }
        | Event::Collect { .. }
        | Event::Issue { .. }
        | Event::Load { .. } => 256,
    }
}

// The place n, or the last place where n is past all.
#[tactic(auto, unfolding(crate::specs::Asks::within))]
pub fn within(n: usize) -> usize
    ensures { result ≡ within n }
{
    n.min(255)
}

// The place of the record that an event means, and what its tests read of the desk: m is the message at the place within which it delivers.
#[tactic(auto, unfolding(crate::specs::Asks::seen_with))]
pub fn look(purses: u8, messages: u16, entries: u16, m: Message, event: Event) -> Seen
    ensures { result ≡ seen_with purses messages entries m event }
{
    let message = if delivered_at(event) < 256 {
        m
    } else {
        Message::default()
    };
    Seen {
        place: place_of(purses, event),
        purses,
        messages,
        entries,
        message,
    }
}
