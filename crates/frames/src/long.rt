// A line of which only the front is held: its head and its length say why it is refused.
ghost use Rattle.std.specs.Prelude.{◌≡◌, ◌+◌, ◌≤◌, length};
ghost use Rattle.rules.specs.Parts.{be2};
ghost use Rattle.frames.specs.FrameAnswers.{due_of, long_line, long_condition};

use super::Due;
use book::{Fault, Refusal};
use numbers::number_at;

// A line of `n` bytes, which begins with these; its number.
#[derive(Clone, Copy)]
pub struct LongLine<'a> {
    pub head: &'a [u8],
    pub n: usize,
    pub line: usize,
    pub ghost headed: { 3 ≤ length head.now },
}

impl<'a> LongLine<'a> {
    // Where its block ends, by the length that the head tells.
    fn end(self) -> usize
        ensures { result ≡ 3 + be2 self.entry.head.now 1 }
    {
        3 + number_at::<2>(self.head, 1) as usize
    }

    // It has more bytes than a ship or a row: 2, then 4 where its tag is not due, else 3.
    pub fn frame(self, due: Due) -> Refusal
        ensures { result ≡ long_line (due_of due) self.entry.line self.entry.head.now self.entry.n }
    {
        if self.n < self.end() {
            return Refusal::in_line(Fault::Overrun, self.line);
        }
        if !due.is(self.head[0]) {
            return Refusal::in_line(Fault::NotAllowed, self.line);
        }
        Refusal::in_line(Fault::WrongLength, self.line)
    }

    // A condition line, of more bytes than any may have: 2, 3, else 5.
    pub fn condition(self) -> Refusal
        ensures { result ≡ long_condition self.entry.line (be2 self.entry.head.now 1) self.entry.n }
    {
        let end = self.end();
        if self.n < end {
            return Refusal::in_line(Fault::Overrun, self.line);
        }
        if self.n == end {
            Refusal::in_line(Fault::Owed, self.line)
        } else {
            Refusal::in_line(Fault::WrongLength, self.line)
        }
    }
}
