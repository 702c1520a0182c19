// The displacement W and the corrected KG, or the refusals 7 and 8.
ghost use Rattle.std.specs.Prelude.{◌≡◌, ◌<◌};
ghost use Rattle.rules.specs.Loading.{in_table};
ghost use Rattle.book.specs.Book.{rows_of};
ghost use Rattle.curve.specs.Weighing.{Whole, InMachine, Sound, kg_of, weighed_of};

use book::{Fault, Row, Sums};

// Above this KG, in tenths of a millimetre, no ship is judged.
const GREATEST_KG: u64 = 600_000;

// The ship's weight and its centre.
#[derive(Clone, Copy)]
pub struct Weight {
    pub w: u64,
    pub kg: u64,
}

// 7: 'total mass below the first row or above the last'.
fn in_table(rows: &[Row], w: u64) -> bool
    requires { Whole rows.now }
    ensures { result ≡ in_table (rows_of rows.now) w }
{
    let lowest = rows[0];
    let highest = rows[rows.len() - 1];
    lowest.mass <= w && w <= highest.mass
}

// 'KG = (sum of mass x centre + free surface moments) / W, rounded up', in tenths of a millimetre.
fn corrected_kg(sums: Sums) -> u64
    requires { (0 < sums.mass) × InMachine sums }
    ensures { result ≡ kg_of sums }
{
    rounding::ceil(10 * (sums.moment + sums.free), sums.mass)
}

// 7, then 8: '8 now above 600,000'. Neither has a place in the text.
pub fn weigh(sums: Sums, rows: &[Row]) -> Result<Weight, Fault>
    requires { Sound sums rows.now }
    ensures { result ≡ weighed_of (rows_of rows.now) sums }
{
    let w = sums.mass;
    if !in_table(rows, w) {
        return Err(Fault::OutsideTable);
    }
    let kg = corrected_kg(sums);
    if GREATEST_KG < kg {
        return Err(Fault::KgTooHigh);
    }
    Ok(Weight { w, kg })
}
