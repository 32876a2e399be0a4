// What an event writes in a lent table and desk, place by place, so that nothing else is moved: worked out by value from what is seen of it, the
// record that it means and the few places that it reads.
#![tactic(auto)]

ghost use Rattle.std.specs.Prelude.{◌≡◌};
ghost use Rattle.rules.specs.Events.{decoded};
ghost use Rattle.desk.specs.Desk.{taken_out};
ghost use Rattle.asks.specs.Asks.{delivered_at, within, seen_with};
ghost use Rattle.deeds.specs.Deeds.{desk_stays, doing, deed_of, deed_by};

use acts::{Change, change_of, one_more, tell};
use asks::{Asked, Seen, ask, delivered_at, look, within};
use card::record;
use desk::{Entry, Ether};
use events::decode;
use purse::{Message, Purse};
use refusals::Head;
use turns::Turned;

// What an event writes: the answer, its record's next state, the number of purses, what then stands behind the messages and behind the
// entries with their counts, and the place of a message that is lost.
#[derive(Clone, Copy)]
pub struct Deed {
    pub answer: u8,
    pub purse: Purse,
    pub purses: u8,
    pub message: Message,
    pub messages: u16,
    pub entry: Entry,
    pub entries: u16,
    pub loses: bool,
    pub place: usize,
}

// The place of the message that an event delivers; the last place where it delivers none.
pub fn delivered(event: &[u8]) -> usize
    ensures { result ≡ within (delivered_at (decoded event.now)) }
{
    within(delivered_at(decode(event)))
}

// The place behind the used ones; the last place where all are used.
pub fn behind(count: u16) -> usize
    ensures { result ≡ within count }
{
    within(usize::from(count))
}

// What is seen of an event, by the desk's counts and the message m at the place that it delivers.
pub fn seen_by(purses: u8, messages: u16, entries: u16, m: Message, event: &[u8]) -> Seen
    ensures { result ≡ seen_with purses messages entries m (decoded event.now) }
{
    look(purses, messages, entries, m, decode(event))
}

// The record q is written, and the desk stays.
#[tactic(auto, unfolding(crate::specs::Deeds::desk_stays))]
fn desk_stays(answer: u8, q: Purse, s: Seen, last: Message, entry: Entry) -> Deed
    ensures { result ≡ desk_stays answer q s last entry }
{
    Deed {
        answer,
        purse: q,
        purses: s.purses,
        message: last,
        messages: s.messages,
        entry,
        entries: s.entries,
        loses: false,
        place: 0,
    }
}

// What a change writes.
#[tactic(auto, unfolding(crate::specs::Deeds::desk_stays, crate::specs::Deeds::doing))]
fn doing(q: Purse, s: Seen, last: Message, entry: Entry, change: Change) -> Deed
    ensures { result ≡ doing q s last entry change }
{
    let mut deed = desk_stays(0, q, s, last, entry);
    match change {
        Change::Nothing => {}
        Change::Send(message) => {
            if s.messages < 256 {
                deed.message = message;
                deed.messages = s.messages + 1;
            } else {
                deed.answer = 1;
            }
        }
        Change::Lose(place) => {
            deed.loses = true;
            deed.place = place as usize;
        }
        Change::Store(oldest) => {
            if s.entries < 256 {
                deed.entry = oldest;
                deed.entries = s.entries + 1;
            }
        }
        Change::Issue => deed.purses = one_more(s.purses),
    }
    deed
}

// What is asked for, as the card answered it at the head of its record p.
#[tactic(auto, unfolding(crate::specs::Deeds::deed_of))]
fn deed_of(p: Purse, s: Seen, last: Message, entry: Entry, asked: Asked, t: Turned) -> Deed
    ensures { result ≡ deed_of p s last entry asked t }
{
    if t.answer == 0 {
        let q = record(p, t.head, t.log);
        let change = change_of(p, asked, t.message);
        doing(q, s, last, entry, change)
    } else {
        desk_stays(t.answer, p, s, last, entry)
    }
}

// What an event writes at its record p, by what is seen of it, and behind the messages and the entries that stand, where `last` and `entry`
// stand now.
#[tactic(auto, unfolding(crate::specs::Deeds::deed_by))]
pub fn done_by(p: Purse, s: Seen, last: Message, entry: Entry, event: &[u8]) -> Deed
    ensures { result ≡ deed_by p s last entry (decoded event.now) }
{
    let asked = ask(s, decode(event));
    let turned = tell(Head::from(p), asked);
    deed_of(p, s, last, entry, asked, turned)
}

// The messages without the one at a place.
pub fn lost(ether: Ether, place: usize) -> Ether
    ensures { result ≡ (taken_out ether place).ether }
{
    ether.take_out(place).ether
}
