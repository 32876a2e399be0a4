// The listing's lines.
ghost use Rattle.std.specs.Prelude.{◌+◌, ◌≤◌, length, leb};
ghost use Rattle.lines.specs.Added.{Added};
ghost use Rattle.lines.specs.Text.{Filled};
ghost use Rattle.lines.specs.Listing.{header_line, opening_line, event_line, event_lines, lines_fit};

use crate::text::Text;

// The header line.
pub fn header(out: &mut [u8]) -> usize
    ensures filled { Filled (leb 6 (length out.old)) header_line out.old result out.new }
    ensures upper_bound { result ≤ length out.new }
{
    if out.len() < 6 {
        return 0;
    }
    let mut line = Text::new(out);
    line.bytes(b"PRS 1\n");
    line.length
}

// The line of an opening that was refused, by its number.
pub fn refused(out: &mut [u8], answer: u8) -> usize
    ensures filled { Filled (leb 29 (length out.old)) (opening_line answer) out.old result out.new }
    ensures upper_bound { result ≤ length out.new }
{
    if out.len() < 29 {
        return 0;
    }
    let mut line = Text::new(out);
    line.bytes(b"opening");
    line.field(u64::from(answer));
    line.end_line();
    line.length
}

fn put_event(out: &mut Text, event: u64, answer: u8)
    requires { out.old.length + 42 ≤ length out.old.buffer.now }
    ensures added { Added out.old (event_line event answer) out.new }
    ensures upper_bound { out.new.length ≤ out.old.length + 42 }
{
    out.number(event);
    out.field(u64::from(answer));
    out.end_line();
}

// The lines of a piece of answers, the first of them that of event `first`.
#[tactic(auto, unfolding(crate::specs::Listing::lines_fit))]
pub fn events(out: &mut [u8], first: u64, answers: &[u8]) -> usize
    ensures filled { Filled (lines_fit first answers.now out.old) (event_lines first answers.now) out.old result out.new }
    ensures upper_bound { result ≤ length out.new }
{
    if out.len() / 42 < answers.len() || 1_000_000_000_000_000_000 < first {
        return 0;
    }
    let mut event = first;
    let mut lines = Text::new(out);
    for answer in answers {
        put_event(&mut lines, event, *answer);
        event += 1;
    }
    lines.length
}
