// What the table gives at W: d, KM and each KN on the straight line between the two rows around W, rounded down.
ghost use Rattle.std.specs.Prelude.{◌≡◌, true, ◌<◌};
ghost use Rattle.std.specs.List.{position};
ghost use Rattle.rules.specs.Rounding.{down, point, line};
ghost use Rattle.rules.specs.Loading.{tenths, in_table};
ghost use Rattle.rules.specs.Curve.{loaded_at};
ghost use Rattle.book.specs.Book.{ship_of, rows_of, weather_of, loaded_of};
ghost use Rattle.curve.specs.Weighing.{Whole};
ghost use Rattle.curve.specs.Interpolation.{heavier, Around, Neighbours, kn_between};

use super::loading::Weight;
use book::{Loaded, Row, Ship, Weather};
use rounding::{Point, Way};

// Two rows with W between them.
#[derive(Drop)]
struct Pair {
    lower: Row,
    upper: Row,
    w: u64,
    ghost neighbours: { Neighbours lower upper w },
}

impl Pair {
    // At W, from a value of each row.
    fn between(&self, low: u64, high: u64) -> u64
        requires { (low < 65_536) × (high < 65_536) }
        ensures { result ≡ line down (point self.now.lower.mass low) (point self.now.upper.mass high) self.now.w }
    {
        let from = Point {
            place: self.lower.mass,
            value: low,
        };
        let to = Point {
            place: self.upper.mass,
            value: high,
        };
        rounding::line(from, to, self.w, Way::Down)
    }

    // KN at each station.
    fn kn(&self) -> [u64; 13]
        ensures { result ≡ kn_between self.now.lower self.now.upper self.now.w }
    {
        let mut kn = [0u64; 13];
        for i in 0..13 {
            kn[i] = self.between(u64::from(self.lower.kn[i]), u64::from(self.upper.kn[i]));
        }
        kn
    }
}

// The first row that is heavier than W.
fn heavier(rows: &[Row], w: u64) -> Option<usize>
    ensures { result ≡ position (heavier w) rows.now }
{
    rows.iter().position(|row| w < row.mass)
}

// The number of the second of the two rows around W: the first heavier row, or the last.
fn around(rows: &[Row], w: u64) -> usize
    requires { Whole rows.now × (in_table (rows_of rows.now) w ≡ true) }
    ensures { Around rows.now w result }
{
    heavier(rows, w).unwrap_or(rows.len() - 1)
}

// The loaded ship at W and KG.
pub fn loaded(ship: Ship, weather: Weather, rows: &[Row], weight: Weight) -> Loaded
    requires { Whole rows.now × (in_table (rows_of rows.now) weight.w ≡ true) }
    ensures { loaded_of result ≡ loaded_at tenths (ship_of ship) (rows_of rows.now) (weather_of weather) weight.w weight.kg }
{
    let Weight { w, kg } = weight;
    let second = around(rows, w);
    let lower = rows[second - 1];
    let upper = rows[second];
    let pair = Pair { lower, upper, w };
    let draught = pair.between(lower.draught, upper.draught);
    let km = pair.between(lower.km, upper.km);
    let kn = pair.kn();
    Loaded {
        ship,
        weather,
        w,
        kg,
        draught,
        km,
        kn,
    }
}
