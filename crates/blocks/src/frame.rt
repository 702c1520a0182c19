// A frame: a line, and the head that is read at its beginning.
ghost use Rattle.std.specs.Prelude.{◌≡◌, ◌+◌, ◌≤◌, length, eqb};
ghost use Rattle.rules.specs.Parts.{part};

use crate::Head;

// Of the line's bytes the block takes 3 + head.len.
#[derive(Clone, Copy)]
pub struct Frame<'a> {
    pub bytes: &'a [u8],
    pub head: Head,
    pub line: usize,
    pub ghost inside: { 3 + head.len ≤ length bytes.now },
}

impl<'a> Frame<'a> {
    // The block ends where its line ends; else 3: 'a frame shorter than its line'.
    pub fn fills_line(self) -> bool
        ensures { result ≡ eqb (length self.entry.bytes.now) (3 + self.entry.head.len) }
    {
        self.bytes.len() == 3 + self.head.len
    }

    // What stands behind the head, up to the block's end.
    pub(crate) fn body(self) -> &'a [u8]
        ensures { result.now ≡ part 3 (3 + self.entry.head.len) self.entry.bytes.now }
    {
        &self.bytes[3..3 + self.head.len]
    }
}
