// A state as bytes: purse count 1, 32 records, message count 2, 256 messages, archive count 2, 256 entries, each part as in an image. It goes
// in and comes out raw, unused places too.
use bigendian::{count_at, put_byte, put_count};
use desk::{Archive, Desk, Entry, Ether, Held};
use layout::widths::{BYTE_WIDTH, COUNT_WIDTH, ENTRY_WIDTH, MESSAGE_WIDTH, PURSE_WIDTH};
use parts::{get_all, put_all};
use purse::{Message, Purse};

const RECORDS: usize = BYTE_WIDTH;

const MESSAGE_COUNT: usize = RECORDS + 32 * PURSE_WIDTH;

const MESSAGES: usize = MESSAGE_COUNT + COUNT_WIDTH;

const ARCHIVE_COUNT: usize = MESSAGES + 256 * MESSAGE_WIDTH;

const ENTRIES: usize = ARCHIVE_COUNT + COUNT_WIDTH;

pub(crate) const STATE_WIDTH: usize = ENTRIES + 256 * ENTRY_WIDTH;

// The state that bytes give.
pub(crate) fn state(s: &[u8]) -> Held {
    let mut table = [Purse::default(); 32];
    get_all(s, RECORDS, 32, &mut table);
    let mut sent = [Message::default(); 256];
    get_all(s, MESSAGES, 256, &mut sent);
    let mut archived = [Entry::default(); 256];
    get_all(s, ENTRIES, 256, &mut archived);
    Held {
        table,
        desk: Desk {
            purses: s.first().copied().unwrap_or(0),
            ether: Ether {
                places: sent,
                count: count_at(s, MESSAGE_COUNT),
            },
            archive: Archive {
                places: archived,
                count: count_at(s, ARCHIVE_COUNT),
            },
        },
    }
}

// The bytes of a state.
pub(crate) fn put_state(out: &mut [u8], held: Held) {
    let Desk {
        purses,
        ether,
        archive,
    } = held.desk;
    put_byte(out, 0, purses);
    put_all(out, RECORDS, &held.table, 32);
    put_count(out, MESSAGE_COUNT, ether.count);
    put_all(out, MESSAGES, &ether.places, 256);
    put_count(out, ARCHIVE_COUNT, archive.count);
    put_all(out, ENTRIES, &archive.places, 256);
}
