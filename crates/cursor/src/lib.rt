// A small reader: the bytes that are left of a parent, and the place, line and offset, at which the first of them stands. 'Blocks as they
// begin, first byte to last.' The functions over it are thin: each takes it apart, and calls functions on the slice and the place.
#![tactic(auto)]

ghost use Rattle.std.specs.Prelude.{◌≡◌, ◌+◌, ◌≤◌, ◌<◌, ◌^◌, length, eqb};
ghost use Rattle.rules.specs.Walk.{header};
ghost use Rattle.rules.specs.Parts.{part};
ghost use Rattle.book.specs.Book.{answered};
ghost use Rattle.blocks.specs.BlockAnswers.{plain_head};
ghost use Rattle.cursor.specs.Readers.{further, OverPart};

use blocks::Head;
use book::{Fault, Place, Refusal};

// ---- the slice and the place
// What begins in `s`, whose first byte stands at this place: a block that lies inside its parent, or 2.
fn head_at(s: &[u8], place: Place) -> Result<Head, Refusal>
    ensures { result ≡ answered plain_head (header place.line place.offset s.now) }
{
    let Some(head) = blocks::header(s) else {
        return Err(Refusal::at(Fault::Overrun, place));
    };
    Ok(head)
}

// The bytes from here to there.
fn bytes(s: &[u8], from: usize, to: usize) -> &[u8]
    requires { (from ≤ to) × (to ≤ length s.now) }
    ensures { (result.now ≡ part from to s.now) × (result.ref_ptr ≡ further s.entry.ref_ptr from) }
{
    &s[from..to]
}

// So many bytes further on in the line.
fn onward(place: Place, bytes: usize) -> Place
    requires { place.offset + bytes < 2 ^ 64 }
    ensures { result ≡ record { line = place.line; offset = place.offset + bytes } }
{
    Place {
        line: place.line,
        offset: place.offset + bytes,
    }
}

// ---- the reader
#[derive(Clone, Copy)]
pub struct Reader<'a> {
    pub src: &'a [u8],
    pub place: Place,
}

impl<'a> Reader<'a> {
    // A reader at a place.
    pub fn new(src: &'a [u8], place: Place) -> Self
        ensures { (result.src ≡ src.entry) × (result.place ≡ place) }
    {
        Reader { src, place }
    }

    // Nothing is left.
    pub fn is_empty(self) -> bool
        ensures { result ≡ eqb (length self.entry.src.now) 0 }
    {
        self.src.is_empty()
    }

    // What begins here.
    pub fn begins(self) -> Result<Head, Refusal>
        ensures { result ≡ answered plain_head (header self.entry.place.line self.entry.place.offset self.entry.src.now) }
    {
        head_at(self.src, self.place)
    }

    // Inside the block that begins here: it ends with the block's own length.
    pub fn body(self, len: usize) -> Self
        requires { (3 + len ≤ length self.src.now) × (self.place.offset + (3 + len) < 2 ^ 64) }
        ensures { OverPart self.entry 3 (3 + len) result }
    {
        Reader {
            src: bytes(self.src, 3, 3 + len),
            place: onward(self.place, 3),
        }
    }

    // Past that block: it ends with the parent.
    pub fn rest(self, len: usize) -> Self
        requires { (3 + len ≤ length self.src.now) × (self.place.offset + (3 + len) < 2 ^ 64) }
        ensures { OverPart self.entry (3 + len) (length self.entry.src.now) result }
    {
        Reader {
            src: bytes(self.src, 3 + len, self.src.len()),
            place: onward(self.place, 3 + len),
        }
    }
}
