// Stored images, run and compared. Standard input holds images, each after its length in two bytes. Each is read over what the one before it
// left, and what is then held is written: a line gives the answer of reading, the answer and the length of writing, and 1 where the
// bytes written are those read. Last, every byte of the last image is changed to each other value: a line for each byte says how many of the
// 255 read without refusal, and how many gave 2, 16, 17 and 18.
#![tactic(auto)]

ghost use Rattle.std.specs.Prelude.{◌≡◌, ◌+◌, ◌<◌, ◌≤◌, length, IfSome};

use bigendian::count_at;
use desk::{Desk, Held};
use purse::Purse;
use std::io;
use std::io::ErrorKind;
use std::ops::Range;

// How many readings answered 0, 2, 16, 17 and 18.
#[derive(Clone, Copy, Default)]
struct Tally {
    done: u32,
    rules: u32,
    length: u32,
    mark: u32,
    version: u32,
}

impl Tally {
    fn count(&mut self, answer: u8) {
        match answer {
            0 => self.done = self.done.wrapping_add(1),
            2 => self.rules = self.rules.wrapping_add(1),
            16 => self.length = self.length.wrapping_add(1),
            17 => self.mark = self.mark.wrapping_add(1),
            18 => self.version = self.version.wrapping_add(1),
            _ => {}
        }
    }
}

// A bench of no purses, which no rule allows.
fn none() -> Held {
    Held {
        table: [Purse::default(); 32],
        desk: Desk::opened(0),
    }
}

// Whether out begins with the bytes, and they are so many.
fn begins(out: &[u8], bytes: &[u8], length: usize) -> bool {
    bytes.len() == length && out.starts_with(bytes)
}

// Write what is held, into so many places, and compare.
fn shown(rt: &impl Print, held: Held, out: &mut [u8], bytes: &[u8]) -> io::Result<()> {
    let written = image::write(held, out);
    let (answer, length) = (written.answer, written.length);
    let same = u8::from(begins(out, bytes, length));
    println!(rt; "{answer} {length} {same}")
}

// Read an image over what is held, and write what is held then.
fn tried(rt: &impl Print, held: Held, bytes: &[u8]) -> io::Result<Held> {
    let read = image::read(held, bytes);
    let mut space = [0; 65536];
    print!(rt; "{} ", read.answer)?;
    shown(rt, read.held, &mut space, bytes)?;
    Ok(read.held)
}

// The image with the byte at a place changed to each other value, read.
fn changed(rt: &impl Print, held: Held, bytes: &mut [u8], at: usize) -> io::Result<()>
    requires { at < length bytes.old }
    ensures { length bytes.new ≡ length bytes.old }
{
    let was = bytes[at];
    let mut tally = Tally::default();
    for step in 1..=u8::MAX {
        bytes[at] = was.wrapping_add(step);
        tally.count(image::read(held, bytes).answer);
    }
    bytes[at] = was;
    let Tally {
        done,
        rules,
        length,
        mark,
        version,
    } = tally;
    println!(rt; "{done} {rules} {length} {mark} {version}")
}

// Each byte of an image.
fn each_changed(rt: &impl Print, held: Held, bytes: &mut [u8]) -> io::Result<()> {
    for i in 0..bytes.len() {
        changed(rt, held, bytes, i)?;
    }
    Ok(())
}

// Where the image lies whose length stands at a place, if a whole image follows.
fn image_at(input: &[u8], at: usize) -> Option<Range<usize>>
    requires { at ≤ length input.now }
    ensures { IfSome result (λ image. (at + 2 ≤ image.start) × (image.start ≤ image.end) × (image.end ≤ length input.now)) }
{
    let left = input.len() - at;
    if left < 2 {
        return None;
    }
    let n = usize::from(count_at(input, at));
    if left - 2 < n {
        return None;
    }
    let start = at + 2;
    Some(start..start + n)
}

// The images one after the other, and the last one changed.
fn all(rt: &impl Print, input: &mut [u8]) -> io::Result<()> {
    let mut held = none();
    let mut short = [0; 100];
    shown(rt, held, &mut short, b"")?;
    let mut last = 0..0;
    while let Some(image) = image_at(input, last.end) {
        held = tried(rt, held, &input[image.start..image.end])?;
        last = image;
    }
    shown(rt, held, &mut short, b"")?;
    each_changed(rt, held, &mut input[last])
}

fn main(rt: HostRuntime) -> io::Result<()> {
    let mut input = [0; 65536];
    let n = stream::fill(&mut rt.stdin(), &mut input, &[ErrorKind::Interrupted])?;
    all(&rt, &mut input[..n])
}
