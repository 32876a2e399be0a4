// The parts of an image as bytes: details, a purse, a message, an archive entry, each put and got at a place of any bytes, and lists of them.
#![tactic(auto)]

mod lists; // lists.rt: records one after the other

ghost use Rattle.std.specs.Prelude.{◌≡◌, ℕ, ◌<◌, List, length};
ghost use Rattle.purse.specs.Details.{zero_details, zero_message};
ghost use Rattle.purse.specs.Purse.{zero_purse};
ghost use Rattle.std.proofs.Common.{lit<};
ghost use Rattle.desk.specs.Desk.{zero_entry};
ghost use Rattle.bigendian.specs.Bytes.{put_in, read_in};
ghost use Rattle.layout.specs.Widths.{details_width, purse_width, message_width, entry_width};
ghost use Rattle.layout.specs.Records.{details_bytes, details_at, purse_bytes, purse_at, message_bytes, message_at, entry_bytes, entry_at};

use bigendian::{number_at, put_byte, put_number};
use desk::Entry;
use layout::widths::{
    AMOUNT_PLACE, BYTE_WIDTH, DETAILS_PLACE, DETAILS_WIDTH, ENTRY_WIDTH, LOG_PLACE, LOGGED_PLACE,
    MESSAGE_WIDTH, NEXT_PLACE, PAYEE_PLACE, PAYEESEQ_PLACE, PAYERSEQ_PLACE, PURSE_WIDTH,
    STATUS_PLACE,
};
pub use lists::{get_all, put_all};
use purse::{Amount, Details, Message, Name, Purse, Seq};

// A record of an image: how many bytes it takes, which they are, and which record bytes at a place give.
pub trait Part: Copy {
    ghost WIDTH: { ℕ };

    const WIDTH: usize;

    ghost bytes: { Self → List ℕ };

    ghost value_at: { List ℕ → ℕ → Self };

    ghost zero: { Self };

    // Nothing is put where the bytes have no room.
    fn put(&self, out: &mut [u8], at: usize)
        ensures put { out.new ≡ put_in WIDTH out.old at (bytes self.now) }
        ensures wide { length (bytes self.now) ≡ WIDTH };

    // The record is all zero where its bytes are not all there.
    fn get(s: &[u8], at: usize) -> Self
        ensures { result ≡ read_in value_at WIDTH zero s.now at };

    // A record has some bytes, and so few that no list of an image overflows.
    ghost some: { 0 < WIDTH };

    ghost narrow: { WIDTH < 256 };
}

impl Part for Details {
    ghost WIDTH = { details_width };

    const WIDTH: usize = DETAILS_WIDTH;

    ghost bytes = { details_bytes };

    ghost value_at = { details_at };

    ghost zero = { zero_details };

    #[tactic(auto, using(layout::proofs::Records::details_coded, bigendian::proofs::Puts::put_nowhere))]
    fn put(&self, out: &mut [u8], at: usize) {
        if out.len().saturating_sub(at) < DETAILS_WIDTH {
            return;
        }
        put_byte(out, at, self.payer.0);
        put_number(out, at + PAYERSEQ_PLACE, self.payerseq.0);
        put_byte(out, at + PAYEE_PLACE, self.payee.0);
        put_number(out, at + PAYEESEQ_PLACE, self.payeeseq.0);
        put_number(out, at + AMOUNT_PLACE, self.amount.0);
    }

    #[tactic(auto, using(bigendian::proofs::Numbers::read_there, bigendian::proofs::Numbers::read_missing, bigendian::proofs::Numbers::number_there), unfolding(layout::specs::Records::details_at))]
    fn get(s: &[u8], at: usize) -> Details {
        if s.len().saturating_sub(at) < DETAILS_WIDTH {
            return Details::default();
        }
        Details {
            payer: Name(s[at]),
            payerseq: Seq(number_at(s, at + PAYERSEQ_PLACE)),
            payee: Name(s[at + PAYEE_PLACE]),
            payeeseq: Seq(number_at(s, at + PAYEESEQ_PLACE)),
            amount: Amount(number_at(s, at + AMOUNT_PLACE)),
        }
    }

    ghost some = { lit< tt };

    ghost narrow = { lit< tt };
}

impl Part for Purse {
    ghost WIDTH = { purse_width };

    const WIDTH: usize = PURSE_WIDTH;

    ghost bytes = { purse_bytes };

    ghost value_at = { purse_at };

    ghost zero = { zero_purse };

    #[tactic(auto, using(layout::proofs::Records::purse_coded, bigendian::proofs::Puts::put_nowhere))]
    fn put(&self, out: &mut [u8], at: usize) {
        if out.len().saturating_sub(at) < PURSE_WIDTH {
            return;
        }
        put_number(out, at, self.balance.0);
        put_number(out, at + NEXT_PLACE, self.next.0);
        put_byte(out, at + STATUS_PLACE, self.status);
        put_byte(out, at + LOGGED_PLACE, self.logged);
        self.details.put(out, at + DETAILS_PLACE);
        put_all(out, at + LOG_PLACE, &self.log, 8);
    }

    #[tactic(auto, using(bigendian::proofs::Numbers::read_there, bigendian::proofs::Numbers::read_missing, bigendian::proofs::Numbers::number_there, bigendian::proofs::Gets::first_whole, std::proofs::lemmas::Grind::common_steps), unfolding(layout::specs::Records::purse_at))]
    fn get(s: &[u8], at: usize) -> Purse {
        if s.len().saturating_sub(at) < PURSE_WIDTH {
            return Purse::default();
        }
        let mut log = [Details::default(); 8];
        get_all(s, at + LOG_PLACE, 8, &mut log);
        Purse {
            balance: Amount(number_at(s, at)),
            next: Seq(number_at(s, at + NEXT_PLACE)),
            status: s[at + STATUS_PLACE],
            details: Details::get(s, at + DETAILS_PLACE),
            log,
            logged: s[at + LOGGED_PLACE],
        }
    }

    ghost some = { lit< tt };

    ghost narrow = { lit< tt };
}

impl Part for Message {
    ghost WIDTH = { message_width };

    const WIDTH: usize = MESSAGE_WIDTH;

    ghost bytes = { message_bytes };

    ghost value_at = { message_at };

    ghost zero = { zero_message };

    #[tactic(auto, using(layout::proofs::Records::message_coded, bigendian::proofs::Puts::put_nowhere))]
    fn put(&self, out: &mut [u8], at: usize) {
        if out.len().saturating_sub(at) < MESSAGE_WIDTH {
            return;
        }
        put_byte(out, at, self.kind);
        self.details.put(out, at + BYTE_WIDTH);
    }

    #[tactic(auto, using(bigendian::proofs::Numbers::read_there, bigendian::proofs::Numbers::read_missing), unfolding(layout::specs::Records::message_at))]
    fn get(s: &[u8], at: usize) -> Message {
        if s.len().saturating_sub(at) < MESSAGE_WIDTH {
            return Message::default();
        }
        Message {
            kind: s[at],
            details: Details::get(s, at + BYTE_WIDTH),
        }
    }

    ghost some = { lit< tt };

    ghost narrow = { lit< tt };
}

impl Part for Entry {
    ghost WIDTH = { entry_width };

    const WIDTH: usize = ENTRY_WIDTH;

    ghost bytes = { entry_bytes };

    ghost value_at = { entry_at };

    ghost zero = { zero_entry };

    #[tactic(auto, using(layout::proofs::Records::entry_coded, bigendian::proofs::Puts::put_nowhere))]
    fn put(&self, out: &mut [u8], at: usize) {
        if out.len().saturating_sub(at) < ENTRY_WIDTH {
            return;
        }
        put_byte(out, at, self.by.0);
        self.details.put(out, at + BYTE_WIDTH);
    }

    #[tactic(auto, using(bigendian::proofs::Numbers::read_there, bigendian::proofs::Numbers::read_missing), unfolding(layout::specs::Records::entry_at))]
    fn get(s: &[u8], at: usize) -> Entry {
        if s.len().saturating_sub(at) < ENTRY_WIDTH {
            return Entry::default();
        }
        Entry {
            by: Name(s[at]),
            details: Details::get(s, at + BYTE_WIDTH),
        }
    }

    ghost some = { lit< tt };

    ghost narrow = { lit< tt };
}
