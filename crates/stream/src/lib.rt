// The bench program's run: an input read in pieces, its listing written as it comes. It only moves bytes: what they say is the crate
// listing's, what the bench does the crate bench's. Memory does not grow with the input.
//
// A read or a write that fails ends the listing there, without its foot.
#![tactic(auto)]

mod failure; // failure.rt: why a listing is not whole, told on standard error

ghost use Rattle.std.specs.Prelude.{◌≤◌, ◌<◌, ◌*◌, ℕ, List, length, take, ◌≡◌, IfOk, OnOk};
ghost use Rattle.stream.specs.Run.{Reads, Opens, Listed, Lists};
ghost use Rattle.std.specs.Io.KnownBytes.{Appends, Consumes, IsAtEnd};
ghost use Rattle.listing.specs.Whole.{unopened};

use desk::{Answered, Desk, Held};
pub use failure::{Failure, tell};
use purse::Purse;
use std::io::{Error, ErrorKind, Read, Write};
use std::{io, thread};

// What may go through another time: nothing was ready, or a signal came.
const PUT_OFF: [ErrorKind; 2] = [ErrorKind::Interrupted, ErrorKind::WouldBlock];

// Whether the call that has just failed is made again. There is nothing to wait by, so others get the processor first. A failure of another
// kind stays one.
fn put_off(error: Error, kinds: &[ErrorKind]) -> io::Result<()> {
    if kinds.contains(&error.kind()) {
        thread::yield_now();
        Ok(())
    } else {
        Err(error)
    }
}

// Reads until the bytes are full or the input ends, and returns how many came; reads again after a failure of those kinds. A proved loop has
// to end, and nothing says that an input does: it has a number of turns that no run uses up, and would fail behind them.
pub fn fill<R: Read>(from: &mut R, bytes: &mut [u8], again: &[ErrorKind]) -> io::Result<usize>
    ensures count_in_bounds { IfOk result (λ n. n ≤ length bytes.new) }
    ensures bytes_len_unchanged { length bytes.new ≡ length bytes.old }
    ensures consumed { IfOk result (λ n. Consumes (R.remaining from.old) (R.remaining from.new) (take n bytes.new)) }
    ensures end { IfOk result (λ n. n < length bytes.new → IsAtEnd (R.remaining from.new)) }
{
    let mut count = 0;
    for _ in 0..u64::MAX {
        if count == bytes.len() {
            return Ok(count);
        }
        match from.read(&mut bytes[count..]) {
            Ok(0) => return Ok(count),
            Ok(came) => count += came,
            Err(e) => put_off(e, again)?,
        }
    }
    Err(Error::from(ErrorKind::Interrupted))
}

fn read<R: Read>(from: &mut R, bytes: &mut [u8]) -> Result<usize, Failure>
    ensures count_in_bounds { IfOk result (λ n. n ≤ length bytes.new) }
    ensures bytes_len_unchanged { length bytes.new ≡ length bytes.old }
    ensures consumed { IfOk result (λ n. Consumes (R.remaining from.old) (R.remaining from.new) (take n bytes.new)) }
    ensures end { IfOk result (λ n. n < length bytes.new → IsAtEnd (R.remaining from.new)) }
{
    fill(from, bytes, &PUT_OFF).map_err(Failure::Input)
}

// Writes all the bytes.
fn write<W: Write>(to: &mut W, bytes: &[u8]) -> Result<(), Failure>
    ensures { OnOk result (Appends (W.contents to.old) (W.contents to.new) bytes.now) }
{
    let mut count = 0;
    for _ in 0..u64::MAX {
        if count == bytes.len() {
            return Ok(());
        }
        match to.write(&bytes[count..]) {
            Ok(0) => break,
            Ok(went) => count += went,
            Err(e) => put_off(e, &PUT_OFF).map_err(Failure::Listing)?,
        }
    }
    Err(Failure::Listing(Error::from(ErrorKind::WriteZero)))
}

// A bench before its opening, which ignores what it held.
fn nothing() -> Held
    ensures { result ≡ unopened }
{
    Held {
        table: [Purse::default(); 32],
        desk: Desk::opened(0),
    }
}

// The opening bytes at the start of the buffer: the purse count, and as many balance bytes as follow it.
fn read_opening<R: Read>(from: &mut R, bytes: &mut [u8; 129]) -> Result<usize, Failure>
    ensures count_in_bounds { IfOk result (λ n. n ≤ 129) }
    ensures read { IfOk result (λ n. Reads (R.remaining from.old) (take n bytes.new) (R.remaining from.new)) }
{
    if read(from, &mut bytes[..1])? == 0 {
        return Ok(0);
    }
    let end = 1 + listing::balance_bytes(bytes[0]);
    Ok(1 + read(from, &mut bytes[1..end])?)
}

// The bench that the input's opening bytes open, or the number by which opening refuses.
fn open<R: Read>(from: &mut R) -> Result<Answered, Failure>
    ensures { IfOk result (λ a. Opens (R.remaining from.old) a (R.remaining from.new)) }
{
    let mut bytes = [0; 129];
    let got = read_opening(from, &mut bytes)?;
    let opening = listing::read_opening(&bytes[..got]);
    Ok(opens::opening(nothing(), &opening.balances[..opening.count]))
}

// Event lines as they come, and what the bench then holds. A piece is 512 whole events, the last one of the input shorter, with an event cut
// short at its end. Where a read fails no event is cut short by the input's end, so nothing of that piece is listed. No piece begins past the
// last event number that is listed.
fn events<R: Read, W: Write>(from: &mut R, to: &mut W, opened: Held) -> Result<Held, Failure>
    ensures { IfOk result (λ h. (bytes : List ℕ)
        × Listed opened bytes (R.remaining from.old) (R.remaining from.new) (W.contents to.old) (W.contents to.new) h
        × (length bytes < 12 * 1_000_000_000_000_000_000 → IsAtEnd (R.remaining from.new))) }
{
    let mut input = [0; 6144];
    let mut lines = [0; 21504];
    let mut held = opened;
    for whole in 0..1_000_000_000_000_000_000 / 512 {
        let got = read(from, &mut input)?;
        let listed = listing::piece(held, 1 + 512 * whole, &input[..got], &mut lines);
        write(to, &lines[..listed.length])?;
        held = listed.held;
        if got < 6144 {
            break;
        }
    }
    Ok(held)
}

// The whole run: header, event lines as they come, purse lines and the last line; or the header and the line of a refused opening. What
// fails ends it.
pub fn list<R: Read, W: Write>(from: &mut R, to: &mut W) -> Result<(), Failure>
    ensures { OnOk result (Lists (R.remaining from.old) (W.contents to.old) (W.contents to.new)) }
{
    let mut lines = [0; 4096];
    let length = listing::header(&mut lines);
    write(to, &lines[..length])?;
    let opened = open(from)?;
    if opened.answer == 0 {
        let last = events(from, to, opened.held)?;
        let length = listing::foot(&mut lines, last);
        write(to, &lines[..length])
    } else {
        let length = listing::refused(&mut lines, opened.answer);
        write(to, &lines[..length])
    }
}
