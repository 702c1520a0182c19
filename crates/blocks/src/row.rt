// A2: a row of the table.
ghost use Rattle.std.specs.Prelude.{◌≡◌, ◌∷◌, length, replicate};
ghost use Rattle.rules.specs.Blocks.{field, within, values, ok, row, unbent, smooth};
ghost use Rattle.rules.specs.Walk.{row_in};
ghost use Rattle.rules.specs.Parts.{head_at};
ghost use Rattle.book.specs.Book.{row_of, answered, plain_row};

use crate::frame::Frame;
use book::{Fault, Refusal, Row};
use numbers::{fits, number_at};

// The thirteen KN values of a row.
fn levers(body: &[u8]) -> [u16; 13]
    requires { length body.now ≡ 34 }
    ensures { result ≡ (row.named (values row.fields body.now)).kn }
{
    let mut kn = [0; 13];
    for i in 0..13 {
        kn[i] = number_at::<2>(body, 8 + 2 * i) as u16;
    }
    kn
}

// Each within its limits, the first one 0.
fn levers_fit(kn: [u16; 13]) -> bool
    ensures { result ≡ within (field 2 0 0 ∷ replicate 12 (field 2 0 30000)) kn }
{
    kn[0] == 0 && kn.iter().all(|x| *x <= 30_000)
}

#[tactic(auto, using(crate::proofs::Values::row_values))]
fn read_row(body: &[u8]) -> Row
    requires { length body.now ≡ 34 }
    ensures { row_of result ≡ row.named (values row.fields body.now) }
{
    Row {
        mass: number_at::<4>(body, 0),
        draught: number_at::<2>(body, 4),
        km: number_at::<2>(body, 6),
        kn: levers(body),
    }
}

#[tactic(auto, using(crate::proofs::Limits::ok_row))]
fn row_fits(r: Row) -> bool
    ensures { result ≡ ok row (row_of r) }
{
    fits(r.mass, 100_000, 600_000_000)
        && fits(r.draught, 500, 30_000)
        && fits(r.km, 0, 60_000)
        && levers_fit(r.kn)
}

// 'Some inner KN value, doubled, differs from the sum of its two neighbours by more than 400': x, between a and b, does not.
fn unbent(a: u16, x: u16, b: u16) -> bool
    ensures { result ≡ unbent a x b }
{
    let doubled = 2 * u32::from(x);
    let neighbours = u32::from(a) + u32::from(b);
    doubled <= neighbours + 400 && neighbours <= doubled + 400
}

// None of the inner values does, those at 5 to 55 degrees.
fn is_smooth(kn: [u16; 13]) -> bool
    ensures { result ≡ smooth kn }
{
    kn.windows(3).all(|w| unbent(w[0], w[1], w[2]))
}

// A row whose head is read, its W above the last row's: 3, 6, 10.
pub fn row_in(frame: Frame, last: u64) -> Result<Row, Refusal>
    ensures { result ≡ answered plain_row (row_in frame.entry.line last (head_at 0xA2 frame.entry.head.len frame.entry.bytes.now)) }
{
    if !frame.fills_line() || frame.head.len != 34 {
        return Err(Refusal::in_line(Fault::WrongLength, frame.line));
    }
    let row = read_row(frame.body());
    if !row_fits(row) || row.mass <= last {
        return Err(Refusal::in_line(Fault::OutsideLimits, frame.line));
    }
    if !is_smooth(row.kn) {
        return Err(Refusal::in_line(Fault::TypingSlip, frame.line));
    }
    Ok(row)
}
