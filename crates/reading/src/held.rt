// A line of which the front is held: its first bytes, as many as a row has, and of a longer one no more than that. A ship and a row have
// no more of them, so that a longer line is refused by its head.
ghost use Rattle.std.specs.Prelude.{◌≡◌, ◌<◌, length, take};
ghost use Prim.Native.Nat.{min};
ghost use Rattle.rules.specs.Layout.{is_condition};
ghost use Rattle.rules.specs.Walk.{header, ship_frame};
ghost use Rattle.rules.specs.Booklet.{row_at};
ghost use Rattle.book.specs.Book.{answered, plain_ship, plain_row};
ghost use Rattle.frames.specs.Sizes.{row_bytes};
ghost use Rattle.frames.specs.FrameAnswers.{due_of, long_line};
ghost use Rattle.reading.specs.Fronts.{Cut, misplaced};

use book::{Fault, Refusal, Row, Ship};
use frames::{Due, LongLine};

// The bytes that are held of a line, of the `n` that it has, and its number.
#[derive(Clone, Copy)]
pub struct Held<'a> {
    pub front: &'a [u8],
    pub n: usize,
    pub line: usize,
    ghost cut: { Cut front.now n },
}

impl<'a> Held<'a> {
    ghost use Rattle.reading.specs.Held.{OfLine};

    // What a buffer of a row's bytes holds of it.
    pub fn new(bytes: &'a [u8; super::ROW_BYTES], n: usize, line: usize) -> Self
        ensures { (result.front.now ≡ take (min n row_bytes) bytes.now) × (result.n ≡ n) × (result.line ≡ line) }
    {
        Held {
            front: &bytes[..n.min(super::ROW_BYTES)],
            n,
            line,
        }
    }

    // 'A condition line is one that begins with A3.'
    pub fn begins_a3(self) -> bool
        ensures { OfLine self.entry (λ line l. result ≡ is_condition l) }
    {
        self.front.first() == Some(&0xA3)
    }

    // It is longer than a ship or a row: refused by its head.
    fn too_long(self, due: Due) -> Refusal
        requires { length self.front.now < self.n }
        ensures { result ≡ long_line (due_of due) self.entry.line self.entry.front.now self.entry.n }
    {
        let long = LongLine {
            head: self.front,
            n: self.n,
            line: self.line,
        };
        long.frame(due)
    }

    // Where the ship is due.
    pub fn ship(self) -> Result<Ship, Refusal>
        ensures { OfLine self.entry (λ line l. result ≡ answered plain_ship (ship_frame line l)) }
    {
        if self.front.len() < self.n {
            return Err(self.too_long(Due::Ship));
        }
        frames::ship_frame(self.front, self.line)
    }

    // Where a row is due, with so many rows before it, the last of them with W = last.
    pub fn row(self, rows: usize, last: u64) -> Result<Row, Refusal>
        ensures { OfLine self.entry (λ line l. result ≡ answered plain_row (row_at line rows last l)) }
    {
        if self.front.len() < self.n {
            return Err(self.too_long(Due::Row(rows)));
        }
        frames::row_frame(self.front, self.line, rows, last)
    }

    // Behind a condition line, where no other line may stand: 2, 4.
    pub fn misplaced(self) -> Refusal
        ensures { OfLine self.entry (λ line l. result ≡ misplaced line (header line 0 l)) }
    {
        if self.front.len() < self.n {
            return self.too_long(Due::Nothing);
        }
        let Some(_) = blocks::header(self.front) else {
            return Refusal::in_line(Fault::Overrun, self.line);
        };
        Refusal::in_line(Fault::NotAllowed, self.line)
    }
}
