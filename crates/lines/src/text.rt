// A text under way: bytes and decimal numbers, one behind the other in a buffer that is lent.
ghost use Rattle.std.specs.Prelude.{◌≡◌, ◌+◌, ◌≤◌, length};
ghost use Rattle.lines.specs.Text.{decimal, field, line_end};
ghost use Rattle.lines.specs.Added.{Added};

use itoa::Buffer;

// The buffer, and how many of its bytes are written.
#[derive(Drop)]
pub(crate) struct Text<'a> {
    pub(crate) buffer: &'a mut [u8],
    pub(crate) length: usize,
}

impl<'a> Text<'a> {
    pub(crate) fn new(buffer: &'a mut [u8]) -> Text<'a>
        ensures same_buffer { result.buffer.ghost_name ≡ buffer.entry.ghost_name }
        ensures empty { (result.length ≡ 0) × (result.buffer.now ≡ buffer.old) }
    {
        Text { buffer, length: 0 }
    }

    pub(crate) fn bytes(&mut self, bytes: &[u8])
        requires { self.old.length + length bytes.now ≤ length self.old.buffer.now }
        ensures { Added self.old bytes.now self.new }
    {
        let end = self.length + bytes.len();
        self.buffer[self.length..end].copy_from_slice(bytes);
        self.length = end;
    }

    pub(crate) fn number(&mut self, n: u64)
        requires { self.old.length + 20 ≤ length self.old.buffer.now }
        ensures added { Added self.old (decimal n) self.new }
        ensures upper_bound { self.new.length ≤ self.old.length + 20 }
    {
        let mut digits = Buffer::new();
        self.bytes(digits.format(n).as_bytes());
    }

    pub(crate) fn field(&mut self, n: u64)
        requires { self.old.length + 21 ≤ length self.old.buffer.now }
        ensures added { Added self.old (field n) self.new }
        ensures upper_bound { self.new.length ≤ self.old.length + 21 }
    {
        self.bytes(b" ");
        self.number(n);
    }

    pub(crate) fn end_line(&mut self)
        requires { self.old.length + 1 ≤ length self.old.buffer.now }
        ensures { Added self.old line_end self.new }
    {
        self.bytes(b"\n");
    }
}
