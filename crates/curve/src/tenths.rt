// The curve of a loaded ship at each tenth of a degree from 0 to 600: y there, and the area up to it, each worked out once.
// What stands above reads it by its methods alone, so that another form of it, as the levers at the thirteen stations, can come behind them.
ghost use Rattle.std.specs.Prelude.{◌≡◌, ◌≤◌, pos};
ghost use Rattle.rules.specs.Curve.{y as yOf};
ghost use Rattle.book.specs.Book.{loaded_of};
ghost use Rattle.curve.specs.Levers.{Holds, up_to};

use super::levers;
use book::Afloat;

// The two tables are the caller's, and are filled once.
#[derive(Clone, Copy)]
pub struct Curve<'a> {
    pub ship: &'a Afloat,
    y: &'a [i64; 601],
    area: &'a [i64; 601],
    ghost levers: { Holds (λ t. yOf (loaded_of ship.now.loaded) (pos t)) y.now },
    ghost areas: { Holds (up_to (yOf (loaded_of ship.now.loaded))) area.now },
}

impl<'a> Curve<'a> {
    ghost use Rattle.rules.specs.Curve.{E, area as areaOf};
    ghost use Rattle.curve.specs.Heeled.{heeled};

    // In tables that are lent for it, and go into it: what they hold the type says.
    pub fn of(ship: &'a Afloat, y: &'a mut [i64; 601], area: &'a mut [i64; 601]) -> Self
        ensures { result.ship.now ≡ ship.now }
    {
        levers::curve(ship.loaded.kn, ship.loaded.kg, y);
        levers::areas(y, area);
        Curve { ship, y, area }
    }

    // The flooding angle, at which the curve ends but to windward.
    pub fn flooding(&self) -> usize
        ensures { result ≡ E (heeled self.now) }
    {
        self.ship.loaded.weather.flooding as usize
    }

    // y at a tenth.
    pub fn y(&self, t: usize) -> i64
        requires { t ≤ 600 }
        ensures { result ≡ yOf (heeled self.now) (pos t) }
    {
        self.y[t]
    }

    // The area from 0 to a tenth.
    pub fn area_to(&self, t: usize) -> i64
        requires { t ≤ 600 }
        ensures { result ≡ areaOf (yOf (heeled self.now)) (pos 0) (pos t) }
    {
        self.area[t]
    }
}
