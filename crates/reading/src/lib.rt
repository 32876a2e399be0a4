// A stored image read: the bench that bytes give. What an image is, and which refusal comes first, stands in the crate layout.
#![tactic(auto)]

ghost use Rattle.std.specs.Prelude.{◌≡◌, ◌≤◌, ◌&&◌, leb, length};
ghost use Rattle.purse.specs.Tests.{first};
ghost use Rattle.purse.specs.Refusals.{answer_of};
ghost use Rattle.layout.specs.Widths.{head_width};
ghost use Rattle.layout.specs.Head.{marked, purses_in, messages_in, entries_in, head_tests};
ghost use Rattle.layout.specs.Image.{bench_in};
ghost use Rattle.layout.specs.Calls.{held_read};

use bigendian::count_at;
use desk::{Answered, Archive, Desk, Entry, Ether, Held};
use layout::widths::{
    ENTRIES_PLACE, HEAD_WIDTH, MESSAGE_WIDTH, MESSAGES_PLACE, PURSE_WIDTH, PURSES_PLACE,
    VERSION_PLACE,
};
use layout::{VERSION, image_length};
use parts::get_all;
use purse::{Message, Purse, Refusal, refuse_if};
use table::held_ok;

// How many purses, messages and archive entries an image says that it has.
#[derive(Clone, Copy)]
struct Counts {
    purses: u8,
    messages: u16,
    entries: u16,
}

impl Counts {
    #[tactic(auto, using(bigendian::proofs::Numbers::count_there))]
    fn of(s: &[u8]) -> Counts
        requires { head_width ≤ length s.now }
        ensures purses { result.purses ≡ purses_in s.now }
        ensures messages { result.messages ≡ messages_in s.now }
        ensures entries { result.entries ≡ entries_in s.now }
    {
        Counts {
            purses: s[PURSES_PLACE],
            messages: count_at(s, MESSAGES_PLACE),
            entries: count_at(s, ENTRIES_PLACE),
        }
    }

    // 1 to 32 purses, at most 256 messages and 256 archive entries.
    fn are_legal(self) -> bool
        ensures { result ≡ (leb 1 self.purses && leb self.purses 32 && leb self.messages 256 && leb self.entries 256) }
    {
        1 <= self.purses && self.purses <= 32 && self.messages <= 256 && self.entries <= 256
    }
}

// Mark 50 52 53 ("PRS").
fn is_marked(s: &[u8]) -> bool
    requires { head_width ≤ length s.now }
    ensures { result ≡ marked s.now }
{
    s[0] == 0x50 && s[1] == 0x52 && s[2] == 0x53
}

// The head's tests, in the documents' order.
#[tactic(auto, using(bigendian::proofs::Numbers::count_there))]
fn check_head(s: &[u8]) -> Result<(), Refusal>
    ensures { answer_of result ≡ first (head_tests s.now) }
{
    refuse_if(s.len() < HEAD_WIDTH, Refusal::BadLength)?;
    refuse_if(!is_marked(s), Refusal::WrongMark)?;
    refuse_if(count_at(s, VERSION_PLACE) != VERSION, Refusal::WrongVersion)?;
    let n = Counts::of(s);
    refuse_if(!n.are_legal(), Refusal::NotWellFormed)?;
    refuse_if(
        s.len() != image_length(n.purses, n.messages, n.entries),
        Refusal::BadLength,
    )
}

// The bench of an image whose head is right.
// What it holds on the stack is gone when it returns: it is not put in line.
#[inline(never)]
fn get_bench(s: &[u8]) -> Held
    requires { first (head_tests s.now) ≡ 0 }
    ensures { result ≡ bench_in s.now }
{
    let Counts {
        purses,
        messages,
        entries,
    } = Counts::of(s);
    let messages_from = HEAD_WIDTH + PURSE_WIDTH * usize::from(purses);
    let entries_from = messages_from + MESSAGE_WIDTH * usize::from(messages);
    let mut table = [Purse::default(); 32];
    get_all(s, HEAD_WIDTH, u16::from(purses), &mut table);
    let mut sent = [Message::default(); 256];
    get_all(s, messages_from, messages, &mut sent);
    let mut archived = [Entry::default(); 256];
    get_all(s, entries_from, entries, &mut archived);
    Held {
        table,
        desk: Desk {
            purses,
            ether: Ether {
                places: sent,
                count: messages,
            },
            archive: Archive {
                places: archived,
                count: entries,
            },
        },
    }
}

// The bench of an image, whatever was held before; a refusal leaves that.
#[tactic(auto, using(layout::proofs::Trips::read_number_lem), unfolding(layout::specs::Calls::held_read))]
pub fn read(held: Held, bytes: &[u8]) -> Answered
    ensures { result ≡ held_read held bytes.now }
{
    match check_head(bytes) {
        Ok(()) => {
            let found = get_bench(bytes);
            if held_ok(found) {
                Answered {
                    answer: 0,
                    held: found,
                }
            } else {
                Answered {
                    answer: u8::from(Refusal::NotWellFormed),
                    held,
                }
            }
        }
        Err(why) => Answered {
            answer: u8::from(why),
            held,
        },
    }
}
