// What a ship comes to before it is judged: the figures of criteria 1 to 6, the wind, and what the report says of 8.
ghost use Rattle.std.specs.Prelude.{◌≡◌};
ghost use Rattle.book.specs.Book.{loaded_of};
ghost use Rattle.gust.specs.Gusts.{wind_of, gust_of};
ghost use Rattle.criteria.specs.Figures.{righting_of, eighth_of};

use super::eighth::Eighth;
use super::righting::{self, Righting};
use book::Afloat;
use curve::Curve;
use gust::Wind;

#[derive(Drop)]
pub struct Measures {
    pub ship: Afloat,
    pub righting: Righting,
    pub wind: Wind,
    pub eighth: Eighth,
    ghost righted: { righting ≡ righting_of (loaded_of ship.loaded) },
    ghost blown: { wind ≡ wind_of (loaded_of ship.loaded) },
    ghost rolled: { eighth ≡ eighth_of (gust_of (loaded_of ship.loaded)) },
}

impl Measures {
    ghost use Rattle.rules.specs.Criteria.{set};

    // 4 looks from an angle of the set's.
    pub fn of(ship: Afloat, from: usize) -> Self
        requires { from ≡ (set (loaded_of ship.loaded)).from }
        ensures { result.ship ≡ ship }
    {
        let mut y = [0; 601];
        let mut area = [0; 601];
        let curve = Curve::of(&ship, &mut y, &mut area);
        let righting = righting::measure(&curve, from);
        let wind = gust::steady(&curve);
        let gust = gust::weathered(&curve, wind);
        let eighth = Eighth::from(gust);
        Measures {
            ship,
            righting,
            wind,
            eighth,
        }
    }
}
