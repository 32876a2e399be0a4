// The listing's foot: a line for each purse, and the last line with the counts and the claims figure.
ghost use Rattle.std.specs.Prelude.{◌+◌, ◌*◌, ◌≤◌, length, leb};
ghost use Rattle.lines.specs.Added.{Added};
ghost use Rattle.lines.specs.Text.{Filled, numbered};
ghost use Rattle.lines.specs.Listing.{purse_line, last_line, foot_of, foot_room};

use crate::text::Text;
use desk::Held;
use purse::Purse;

fn put_purse(out: &mut Text, name: usize, p: &Purse)
    requires { out.old.length + 111 ≤ length out.old.buffer.now }
    ensures added { Added out.old (purse_line name p.now) out.new }
    ensures upper_bound { out.new.length ≤ out.old.length + 111 }
{
    out.bytes(b"purse");
    out.field(name as u64);
    out.field(u64::from(p.balance.0));
    out.field(u64::from(p.next.0));
    out.field(u64::from(p.status));
    out.field(u64::from(p.logged));
    out.end_line();
}

// The lines of purses, names from 0.
fn put_purses(out: &mut Text, purses: &[Purse])
    requires { out.old.length + 111 * length purses.now ≤ length out.old.buffer.now }
    ensures added { Added out.old (numbered purse_line 0 purses.now) out.new }
    ensures upper_bound { out.new.length ≤ out.old.length + 111 * length purses.now }
{
    for (name, p) in purses.iter().enumerate() {
        put_purse(out, name, p);
    }
}

fn put_last(out: &mut Text, messages: u16, archive: u16, claims: u32)
    requires { out.old.length + 87 ≤ length out.old.buffer.now }
    ensures added { Added out.old (last_line messages archive claims) out.new }
    ensures upper_bound { out.new.length ≤ out.old.length + 87 }
{
    out.bytes(b"messages");
    out.field(u64::from(messages));
    out.bytes(b" archive");
    out.field(u64::from(archive));
    out.bytes(b" claims");
    out.field(u64::from(claims));
    out.end_line();
}

// The purse lines and the last line. A purse count above 32 counts as 32: the table has no more records. The claims figure is the bench's own.
pub fn foot(out: &mut [u8], held: Held) -> usize
    ensures filled { Filled (leb foot_room (length out.old)) (foot_of held) out.old result out.new }
    ensures upper_bound { result ≤ length out.new }
{
    if out.len() < 4096 {
        return 0;
    }
    let figure = claims::claims(held);
    let count = usize::from(held.desk.purses).min(32);
    let mut foot = Text::new(out);
    put_purses(&mut foot, &held.table[..count]);
    put_last(
        &mut foot,
        held.desk.ether.count,
        held.desk.archive.count,
        figure.claims,
    );
    foot.length
}
