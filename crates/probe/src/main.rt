// A test rig's door to every entry: requests on standard input, a reply to each on standard output. It turns bytes into records, calls the
// library once, and turns records into bytes. A request that is cut short or of another letter ends it.
#![tactic(auto)]

mod states; // states.rt: a whole state as bytes

ghost use Rattle.std.specs.Prelude.{◌<◌, IfOk};

use crate::states::STATE_WIDTH;
use bigendian::{number_at, put_byte, put_count, put_number};
use desk::Held;
use layout::widths::{BYTE_WIDTH, DETAILS_WIDTH, MESSAGE_WIDTH, NUMBER_WIDTH, PURSE_WIDTH};
use parts::Part;
use purse::{Amount, CardEvent, Message, Name, Purse, Seq};
use std::io;
use std::io::{ErrorKind, Read};

// Why no more requests are answered: one is none or cut short, or a read or a write failed.
#[derive(Drop)]
enum End {
    NoRequest,
    Failed(io::Error),
}

impl From<io::Error> for End {
    fn from(why: io::Error) -> End {
        match why.kind() {
            ErrorKind::UnexpectedEof => End::NoRequest,
            _ => End::Failed(why),
        }
    }
}

// The next bytes of the input, as many as the array has.
fn next<const N: usize>(rt: &HostRuntime) -> Result<[u8; N], End> {
    let mut bytes = [0; N];
    rt.stdin().read_exact(&mut bytes)?;
    Ok(bytes)
}

// So many bytes of the input, at the start of a buffer, if it has room for them.
fn filled<'a>(rt: &HostRuntime, space: &'a mut [u8], n: usize) -> Result<&'a mut [u8], End> {
    let bytes = space.get_mut(..n).ok_or(End::NoRequest)?;
    rt.stdin().read_exact(bytes)?;
    Ok(bytes)
}

// A length of one byte, and of two.
fn short_length(rt: &HostRuntime) -> Result<usize, End>
    ensures { IfOk result (λ n. n < 256) }
{
    Ok(usize::from(u8::from_be_bytes(next(rt)?)))
}

fn length(rt: &HostRuntime) -> Result<usize, End> {
    Ok(usize::from(u16::from_be_bytes(next(rt)?)))
}

// The state that a request is over.
fn state(rt: &HostRuntime) -> Result<Held, End> {
    let bytes: [u8; STATE_WIDTH] = next(rt)?;
    Ok(states::state(&bytes))
}

// An answer and the state after it.
fn reply(rt: &impl Print, answer: u8, held: Held) -> Result<(), End> {
    let mut bytes = [0; STATE_WIDTH];
    states::put_state(&mut bytes, held);
    rt.write_all(&[answer])?;
    rt.write_all(&bytes)?;
    Ok(())
}

// The requests over a state. None is put in line: a function pays at its entry for all that it may hold, and a card's request is short.

// An event: length 1, that many bytes.
#[inline(never)]
fn event(rt: &HostRuntime) -> Result<(), End> {
    let held = state(rt)?;
    let n = short_length(rt)?;
    let mut space = [0; 255];
    let answered = bench::event(held, filled(rt, &mut space, n)?);
    reply(rt, answered.answer, answered.held)
}

// An opening: number of balances 1, 4 bytes each.
#[inline(never)]
fn opening(rt: &HostRuntime) -> Result<(), End> {
    let held = state(rt)?;
    let n = short_length(rt)?;
    let mut space = [0; 255 * NUMBER_WIDTH];
    let bytes = filled(rt, &mut space, NUMBER_WIDTH * n)?;
    let mut balances = [0; 256];
    for (balance, number) in balances.iter_mut().zip(bytes.chunks_exact(NUMBER_WIDTH)) {
        *balance = number_at(number, 0);
    }
    let answered = opens::opening(held, &balances[..n]);
    reply(rt, answered.answer, answered.held)
}

// A read: length 2, image bytes.
#[inline(never)]
fn read(rt: &HostRuntime) -> Result<(), End> {
    let held = state(rt)?;
    let n = length(rt)?;
    let mut space = [0; 65535];
    let answered = image::read(held, filled(rt, &mut space, n)?);
    reply(rt, answered.answer, answered.held)
}

// A write: buffer length 2. The buffer is filled with AA hex.
#[inline(never)]
fn write(rt: &HostRuntime) -> Result<(), End> {
    let held = state(rt)?;
    let n = length(rt)?;
    let mut space = [0xAA; 65535];
    let out = space.get_mut(..n).ok_or(End::NoRequest)?;
    let written = image::write(held, out);
    let mut head = [written.answer, 0, 0];
    put_count(&mut head, BYTE_WIDTH, (written.length % 65536) as u16);
    rt.write_all(&head)?;
    rt.write_all(out)?;
    Ok(())
}

#[inline(never)]
fn claims(rt: &HostRuntime) -> Result<(), End> {
    let figure = claims::claims(state(rt)?);
    let mut out = [figure.answer, 0, 0, 0, 0];
    put_number(&mut out, BYTE_WIDTH, figure.claims);
    rt.write_all(&out)?;
    Ok(())
}

// Where the parts of a card's request stand: own name 1, record, kind 1, counterparty 1, number 4, amount 4, message.
const RECORD: usize = BYTE_WIDTH;

const KIND: usize = RECORD + PURSE_WIDTH;

const COUNTERPARTY: usize = KIND + BYTE_WIDTH;

const NUMBER: usize = COUNTERPARTY + BYTE_WIDTH;

const AMOUNT: usize = NUMBER + NUMBER_WIDTH;

const MESSAGE: usize = AMOUNT + NUMBER_WIDTH;

const CARD_WIDTH: usize = MESSAGE + MESSAGE_WIDTH;

// And those of the reply: answer 1, record, message handed out, details handed out.
const SENT: usize = RECORD + PURSE_WIDTH;

const HANDED: usize = SENT + MESSAGE_WIDTH;

const REPLY_WIDTH: usize = HANDED + DETAILS_WIDTH;

// What the card is told by a request; none for a kind that there is not.
fn told(bytes: &[u8; CARD_WIDTH]) -> Option<CardEvent> {
    let other = Name(bytes[COUNTERPARTY]);
    let seq = Seq(number_at(bytes, NUMBER));
    let amount = Amount(number_at(bytes, AMOUNT));
    match bytes[KIND] {
        1 => Some(CardEvent::StartFrom { other, seq, amount }),
        2 => Some(CardEvent::StartTo { other, seq, amount }),
        3 => Some(CardEvent::Deliver(Message::get(bytes, MESSAGE))),
        4 => Some(CardEvent::Abort),
        6 => Some(CardEvent::Collect),
        8 => Some(CardEvent::Load(amount)),
        _ => None,
    }
}

// A card's step.
fn card_step(rt: &HostRuntime) -> Result<(), End> {
    let bytes: [u8; CARD_WIDTH] = next(rt)?;
    let event = told(&bytes).ok_or(End::NoRequest)?;
    let answered = card::step(Purse::get(&bytes, RECORD), Name(bytes[0]), event);
    let mut out = [0; REPLY_WIDTH];
    put_byte(&mut out, 0, answered.answer);
    answered.purse.put(&mut out, RECORD);
    answered.message.put(&mut out, SENT);
    answered.entry.put(&mut out, HANDED);
    rt.write_all(&out)?;
    Ok(())
}

// One request and its reply.
fn request(rt: &HostRuntime) -> Result<(), End> {
    let [letter]: [u8; 1] = next(rt)?;
    match letter {
        b'C' => claims(rt),
        b'E' => event(rt),
        b'O' => opening(rt),
        b'R' => read(rt),
        b'W' => write(rt),
        b'P' => card_step(rt),
        _ => Err(End::NoRequest),
    }
}

// A proved loop has to end, and nothing says that an input does: it has a number of turns that no run uses up.
fn main(rt: HostRuntime) -> io::Result<()> {
    for _ in 0..u64::MAX {
        match request(&rt) {
            Ok(()) => {}
            Err(End::NoRequest) => break,
            Err(End::Failed(why)) => return Err(why),
        }
    }
    Ok(())
}
