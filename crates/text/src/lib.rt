// Characters: the line at the front of a text, pair by pair, and then what ends it. As many of its bytes are kept as the buffer holds; the
// others are only checked and counted.
#![tactic(auto)]

mod pairs;

ghost use Rattle.std.specs.Prelude.{◌≡◌};
ghost use Rattle.text.specs.Line.{decoded, over, ended, line_of};

use pairs::Digits;

// What stands here is no line.
#[derive(Clone, Copy, Debug, PartialEq, Eq)]
pub struct NoLine;

// What stands after n bytes: one LF, or these were no line. None where the text has ended.
#[tactic(auto, using(crate::proofs::Ended::ended_end, crate::proofs::Ended::ended_open, crate::proofs::Ended::ended_empty, crate::proofs::Ended::ended_line, crate::proofs::Ended::ended_other))]
fn ends(rest: &[u8], n: usize) -> Result<Option<usize>, NoLine>
    ensures { result ≡ ended n rest.now }
{
    if rest.len() == 0 {
        return if n == 0 { Ok(None) } else { Err(NoLine) };
    }
    if n == 0 {
        return Err(NoLine);
    }
    if rest[0] == b'\n' {
        Ok(Some(n))
    } else {
        Err(NoLine)
    }
}

// The line at the front of a text, its first bytes to the front of a buffer: how many it has in all; none where the text has ended.
pub fn line_at(text: &[u8], out: &mut [u8]) -> Result<Option<usize>, NoLine>
    ensures { (result ≡ line_of text.now) × (out.new ≡ over (decoded text.now) out.old) }
{
    let digits = Digits::new();
    let first = digits.decode(text, out);
    let n = digits.all_pairs(text, first, out.len());
    ends(&text[2 * n..], n)
}
