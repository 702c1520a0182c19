// The wind levers of criterion 7, and the roll to windward of criterion 8 (Code 2.3.4).
#![tactic(auto)]

ghost use Rattle.std.specs.Prelude.{◌≡◌, false, ◌*◌, ◌<◌};
ghost use Rattle.rules.specs.Roll.{b as bOf, C as cOf, period as periodOf, k as k_of, p as pOf, r as r_of, phi1 as phi1Of, outside_range, not_judged};
ghost use Rattle.book.specs.Book.{loaded_of};
ghost use Rattle.roll.specs.Rolls.{wind_levers, roll_of};

use book::{Afloat, Bilge};

mod tables;

// The steady wind's lever and the gust's, in mm.
#[derive(Clone, Copy)]
pub struct WindLevers {
    pub lw1: u64,
    pub lw2: u64,
}

pub fn wind_levers(c: &Afloat) -> WindLevers
    ensures { result ≡ wind_levers (loaded_of c.now.loaded) }
{
    let moment = 5040 * c.loaded.weather.wind * c.loaded.weather.z;
    let weight = 981 * c.loaded.w;
    let lw1 = rounding::ceil(moment, weight);
    let lw2 = rounding::ceil(3 * lw1, 2);
    WindLevers { lw1, lw2 }
}

// k from the keel index, in thousandths.
fn keel(c: &Afloat) -> u64
    ensures { result ≡ k_of (loaded_of c.now.loaded) }
{
    let ship = c.loaded.ship;
    match ship.bilge {
        Bilge::Sharp => 700,
        Bilge::Round => {
            let index = 1_000_000_000 * ship.keel / (ship.length * ship.breadth);
            rounding::table_up(&tables::K, index)
        }
    }
}

// r = 730 + 600 (KG - 10 d)/(10 d), the quotient rounded up, also below zero.
fn height(c: &Afloat) -> i64
    ensures { result ≡ r_of (loaded_of c.now.loaded) }
{
    let d = (10 * c.loaded.draught) as i64;
    let over = 600 * (c.loaded.kg as i64 - d);
    730 + rounding::ceil_signed(over, d)
}

// The ship as she rolls: b = 1000 B/d is worked out once.
#[derive(Clone, Copy)]
struct Rolled<'a> {
    c: &'a Afloat,
    b: u64,
    ghost ratio: { b ≡ bOf (loaded_of c.now.loaded) },
}

impl<'a> Rolled<'a> {
    fn new(c: &'a Afloat) -> Self
        ensures { result.c.now ≡ c.now }
    {
        let b = 1000 * c.loaded.ship.breadth / c.loaded.draught;
        Rolled { c, b }
    }

    // C = 373,000 + 23 b - (43 L/100, up).
    fn coefficient(self) -> u64
        ensures { result ≡ cOf (loaded_of self.entry.c.now.loaded) }
    {
        373_000 + 23 * self.b - rounding::ceil(43 * self.c.loaded.ship.length, 100)
    }

    // The period n, in 0.01 s, up to 2,000: n² GM <= 100 q², GM in tenths of a millimetre.
    fn period(self) -> u64
        requires { self.c.now.loaded.kg < 10 * self.c.now.loaded.km }
        ensures { result ≡ periodOf (loaded_of self.entry.c.now.loaded) }
    {
        let c = self.c;
        let q = 2 * self.coefficient() * c.loaded.ship.breadth / 1_000_000;
        rounding::greatest_square(10 * c.loaded.km - c.loaded.kg, 100 * q * q, 2000)
    }

    // p = k X1 / 1000, up; then times X2 / 1000, up.
    fn factor(self) -> u64
        ensures { result ≡ pOf (loaded_of self.entry.c.now.loaded) }
    {
        let x1 = rounding::table_up(&tables::X1, self.b);
        let x2 = rounding::table_up(&tables::X2, self.c.loaded.weather.cb);
        let kx = rounding::ceil(keel(self.c) * x1, 1000);
        rounding::ceil(kx * x2, 1000)
    }

    // phi1, the least m with 10^13 m² >= 1090² p² r s: one past the greatest whose square falls short.
    fn angle(self, n: u64) -> u64
        requires { (not_judged (loaded_of self.c.now.loaded) ≡ false) × (n ≡ periodOf (loaded_of self.c.now.loaded)) }
        ensures { result ≡ phi1Of (loaded_of self.entry.c.now.loaded) }
    {
        let p = self.factor();
        let r = height(self.c).unsigned_abs();
        let s = rounding::table_up(&tables::S, n);
        let product = 1090 * 1090 * p * p * r * s;
        rounding::greatest_square(10_000_000_000_000, product - 1, 599) + 1
    }
}

// GM, B/d or KG is outside what is judged: KG from 7 d to 15 d in tenths.
#[tactic(auto, using(crate::proofs::Judged::outside_is))]
fn outside(c: &Afloat) -> bool
    ensures { result ≡ outside_range (loaded_of c.now.loaded) }
{
    let kg = c.loaded.kg;
    let d = c.loaded.draught;
    10 * c.loaded.km <= kg || 35 * d <= 10 * c.loaded.ship.breadth || kg < 7 * d || 15 * d < kg
}

// The angle of roll to windward, where the weather criterion is judged.
pub fn rolling(c: &Afloat) -> Option<u64>
    ensures { result ≡ roll_of (loaded_of c.now.loaded) }
{
    if outside(c) {
        return None;
    }
    let ship = Rolled::new(c);
    let n = ship.period();
    if 2000 <= n {
        return None;
    }
    Some(ship.angle(n))
}
