ghost use Rattle.std.specs.Prelude.{◌≡◌, ◌+◌, ◌<◌, ◌≤◌, ◌^◌, length, slice_get, if◌then◌else◌, ◌==◌, is_some, unwrap_or};

/// A place in a source, which goes on byte by byte: the number of bytes before it, and its line,
/// counted from 1.
#[derive(Clone, Copy, Debug)]
pub struct Cursor<'a> {
    pub src: &'a [u8],
    pub at: u32,
    pub line: u32,
}

impl<'a> Cursor<'a> {
    /// The next byte. Goes on by one byte, and to the next line behind LF. `None` at the end, where it
    /// stays.
    pub fn bump(&mut self) -> Option<u8>
        requires at { self.old.at ≤ length self.old.src.now }
        requires line { self.old.line ≤ 1 + self.old.at }
        requires small { length self.old.src.now + 1 < 2 ^ 32 }
        ensures byte { result ≡ slice_get self.old.src.now self.old.at }
        ensures source { self.new.src.now ≡ self.old.src.now }
        ensures place { self.new.at ≡ (if is_some result then self.old.at + 1 else self.old.at) }
        ensures line { self.new.line ≡ (if unwrap_or result 0 == 10 then self.old.line + 1 else self.old.line) }
        ensures at_most { self.new.at ≤ length self.new.src.now }
        ensures line_at_most { self.new.line ≤ 1 + self.new.at }
    {
        if self.at as usize == self.src.len() {
            return None;
        }
        let byte = self.src[self.at as usize];
        self.at += 1;
        if byte == b'\n' {
            self.line += 1;
        }
        Some(byte)
    }
}
