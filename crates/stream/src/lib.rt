// A stream of texts, as on standard input: for each text three times four bytes, the highest first, with its length, the limit of characters and
// the bytes of room in the buffer; and then the text.
#![tactic(auto)]

ghost use Rattle.std.specs.Prelude.{◌≤◌, length, IfOk, IfSome};

use std::error::Error;
use std::io::Read;
use std::{fmt, io};

// A text of `len` bytes stands at the front of the buffer.
#[derive(Clone, Copy)]
pub struct Text {
    pub len: usize,
    pub limit: usize,
    pub room: usize,
}

// The stream has ended within a head or a text, or a text is longer than the buffer.
#[derive(Clone, Copy, Debug, PartialEq, Eq)]
pub struct Broken;

impl fmt::Display for Broken {
    fn fmt<W: fmt::Write>(&self, f: &mut fmt::Formatter<W>) -> fmt::Result {
        write!(f, "the stream is broken")
    }
}

impl Error for Broken {}

// A read that fails within a head or a text.
impl From<io::Error> for Broken {
    fn from(_e: io::Error) -> Broken {
        Broken
    }
}

// Reads until the buffer is full. The end of the stream before that breaks it, and so does a read that fails.
fn fill<R: Read>(input: &mut R, buf: &mut [u8]) -> Result<(), Broken> {
    let mut n = 0;
    while n < buf.len() {
        let more = input.read(&mut buf[n..])?;
        if more == 0 {
            return Err(Broken);
        }
        n += more;
    }
    Ok(())
}

// The next text, into the front of a buffer, or none where the stream has ended. A first read that fails counts as the end of the stream; one that fails
// within a head or a text breaks it.
pub fn next_text<R: Read>(input: &mut R, buf: &mut [u8]) -> Result<Option<Text>, Broken>
    ensures { IfOk result (λ next. IfSome next (λ t. t.len ≤ length buf.new)) }
{
    let mut head = [0u8; 12];
    let got = input.read(&mut head).unwrap_or(0);
    if got == 0 {
        return Ok(None);
    }
    fill(input, &mut head[got..])?;
    let len = numbers::number_at::<4>(&head, 0) as usize;
    if buf.len() < len {
        return Err(Broken);
    }
    fill(input, &mut buf[..len])?;
    Ok(Some(Text {
        len,
        limit: numbers::number_at::<4>(&head, 4) as usize,
        room: numbers::number_at::<4>(&head, 8) as usize,
    }))
}
