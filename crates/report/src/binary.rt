// The binary body: numbers big-endian, each in the part of the buffer that is lent for it.
ghost use Rattle.std.specs.Prelude.{◌≡◌, map, length};
ghost use Rattle.rules.specs.Numbers.{digits, twos};
ghost use Rattle.rules.specs.Report.{concat};
ghost use Rattle.book.specs.Book.{verdict_value};

use book::Verdict;

// 'As 2^64 more than itself where it is negative': the magnitude is subtracted from zero, with wrapping.
fn bits(v: i64) -> u64
    ensures { result ≡ twos v }
{
    let magnitude = v.unsigned_abs();
    if v < 0 {
        0u64.wrapping_sub(magnitude)
    } else {
        magnitude
    }
}

// 'Each figure is written into its own eight bytes.'
#[tactic(auto, using(crate::proofs::Digits::be_bytes_eight))]
fn put_figure(part: &mut [u8], figure: i64)
    requires { length part.old ≡ 8 }
    ensures { part.new ≡ digits 8 (twos figure) }
{
    part.copy_from_slice(&bits(figure).to_be_bytes());
}

// The part of each figure is lent to its writer.
pub fn put_figures(body: &mut [u8], figures: [i64; 11])
    requires { length body.old ≡ 88 }
    ensures { body.new ≡ concat (map (λ z. digits 8 (twos z)) figures) }
{
    for (k, &figure) in figures.iter().enumerate() {
        let at = 8 * k;
        put_figure(&mut body[at..at + 8], figure);
    }
}

// 'Eight verdicts of 1 byte.'
pub fn put_verdicts(part: &mut [u8], verdicts: [Verdict; 8])
    requires { length part.old ≡ 8 }
    ensures { part.new ≡ map verdict_value verdicts }
{
    let bytes = verdicts.map(u8::from);
    part.copy_from_slice(&bytes);
}
