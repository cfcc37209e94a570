// The lines of a text, one after the other. Each borrows the bytes of the text.
ghost use Rattle.std.specs.Prelude.{◌≡◌, ◌+◌, ◌<◌, ◌≤◌, length, is_some, if◌then◌else◌, nat_lt};
ghost use Rattle.std.specs.Option.{option_map};
ghost use Rattle.text.specs.Lines.{lines_from, Takes, First};

// The place of the first `b` of `s`, or the length of `s`.
fn find(s: &[u8], b: u8) -> usize
    ensures { First b s.now result }
{
    s.iter().position(|&x| x == b).unwrap_or(s.len())
}

// A text, how many of its bytes are read, and how many lines.
#[derive(Drop)]
pub struct Reader<'a> {
    bytes: &'a [u8],
    at: usize,
    line: usize,
    ghost inside: { at ≤ length bytes.now },
    ghost counted: { line ≤ at },
}

impl<'a> Reader<'a> {
    // At the start of a text.
    pub fn new(bytes: &'a [u8]) -> Self
        ensures bytes { result.bytes.now ≡ bytes.now }
        ensures start { (result.at ≡ 0) × (result.line ≡ 0) }
    {
        Reader {
            bytes,
            at: 0,
            line: 0,
        }
    }

    // The number of the line that `next_line` gave last, 0 before the first.
    pub fn line(&self) -> usize
        ensures { result ≡ self.now.line }
    {
        self.line
    }

    // Goes on behind a line that ends at `end`, and counts it.
    fn pass(&mut self, end: usize)
        requires { (self.old.at < length self.old.bytes.now) × ((self.old.at ≤ end) × (end ≤ length self.old.bytes.now)) }
        ensures same { self.new.bytes.now ≡ self.old.bytes.now }
        ensures place { self.new.at ≡ end + (if nat_lt end (length self.old.bytes.now) then 1 else 0) }
        ensures count { self.new.line ≡ self.old.line + 1 }
    {
        self.at = if end < self.bytes.len() { end + 1 } else { end };
        self.line += 1;
    }

    // The next line, without its line feed.
    pub fn next_line(&mut self) -> Option<&'a [u8]>
        ensures same { self.new.bytes.now ≡ self.old.bytes.now }
        ensures takes { Takes (lines_from self.old.at self.old.bytes.now) (option_map (λ x. x.now) result) (lines_from self.new.at self.new.bytes.now) }
        ensures count { self.new.line ≡ self.old.line + (if is_some result then 1 else 0) }
    {
        let bytes = self.bytes;
        let start = self.at;
        if start >= bytes.len() {
            return None;
        }
        let rest = &bytes[start..];
        let end = find(rest, b'\n');
        self.pass(start + end);
        Some(&rest[..end])
    }
}
