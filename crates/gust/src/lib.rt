// The heel under steady wind, and criterion 8: the roll to windward, how far the gust is withstood, and the net area.
#![tactic(auto)]

ghost use Rattle.std.specs.Prelude.{◌≡◌, false, ◌≤◌, pos};
ghost use Rattle.rules.specs.Loading.{tenths};
ghost use Rattle.rules.specs.Criteria.{lw1 as lw1Of, lw2 as lw2Of, units as unitsOf, phi0 as phi0Of};
ghost use Rattle.rules.specs.Roll.{phi1, start as start_of, e as eOf, net as netOf, not_judged};
ghost use Rattle.curve.specs.Heeled.{heeled};
ghost use Rattle.gust.specs.Gusts.{wind_of, Blown, withstood_of, gust_of};

use curve::Curve;

// The wind levers in y units, and phi0, where the curve reaches the steady wind's.
#[derive(Clone, Copy)]
pub struct Wind {
    pub lw1: i64,
    pub lw2: i64,
    pub phi0: Option<usize>,
}

// What criterion 8 comes to.
#[derive(Clone, Copy)]
pub enum Gust {
    NotJudged,
    Failed,
    Net { roll: i64, net: i64 },
}

// Millimetres in y units, with KG in tenths of them.
fn units(l: u64) -> i64
    requires { l ≤ 1_500_000 }
    ensures { result ≡ unitsOf tenths l }
{
    (50_000_000 * l) as i64
}

// Steady wind: phi0 is the first tenth at which the curve reaches lw1.
pub fn steady(curve: &Curve) -> Wind
    ensures { result ≡ wind_of (heeled curve.now) }
{
    let levers = roll::wind_levers(curve.ship);
    let lw1 = units(levers.lw1);
    let lw2 = units(levers.lw2);
    let phi0 = curve.reaches(lw1, 0, curve.flooding());
    Wind { lw1, lw2, phi0 }
}

// phi0, or a tenth before it where y is above lw1 there, less the roll.
fn start(curve: &Curve, lw1: i64, phi0: usize, roll: i64) -> i64
    requires { Blown (heeled curve.now) × (lw1 ≡ unitsOf tenths (lw1Of (heeled curve.now))) × (phi0 ≡ phi0Of (heeled curve.now)) × (roll ≡ pos (phi1 (heeled curve.now))) }
    ensures { result ≡ start_of (heeled curve.now) }
{
    let heel = phi0 as i64;
    if curve.y(phi0) <= lw1 {
        heel - roll
    } else {
        heel - 1 - roll
    }
}

// The area from the start to e, less 2 lw2 for each tenth between them. The windward side is the mirror with its sign changed: its area up to upright is taken away, as one
// before a start to leeward is.
fn net(curve: &Curve, lw2: i64, start: i64, e: usize) -> i64
    requires { Blown (heeled curve.now) × (lw2 ≡ unitsOf tenths (lw2Of (heeled curve.now))) × (start ≡ start_of (heeled curve.now)) × (e ≡ eOf (heeled curve.now)) }
    ensures { result ≡ netOf (heeled curve.now) }
{
    let side = start.unsigned_abs() as usize;
    let under = curve.area_to(e) - curve.area_to(side);
    let width = e as i64 - start;
    under - 2 * lw2 * width
}

// The net area, where there is a phi0 and a u.
fn withstood(curve: &Curve, wind: Wind, roll: i64) -> Option<i64>
    requires { (not_judged (heeled curve.now) ≡ false) × (wind ≡ wind_of (heeled curve.now)) × (roll ≡ pos (phi1 (heeled curve.now))) }
    ensures { result ≡ withstood_of (heeled curve.now) }
{
    let phi0 = wind.phi0?;
    let far = curve.flooding().min(500);
    let u = curve.reaches(wind.lw2, phi0, far)?;
    let e = curve.stays(wind.lw2, u, far);
    let from = start(curve, wind.lw1, phi0, roll);
    Some(net(curve, wind.lw2, from, e))
}

// Criterion 8: the roll says whether it is judged; it fails for want of phi0 or u.
pub fn weathered(curve: &Curve, wind: Wind) -> Gust
    requires { wind ≡ wind_of (heeled curve.now) }
    ensures { result ≡ gust_of (heeled curve.now) }
{
    let Some(angle) = roll::rolling(curve.ship) else {
        return Gust::NotJudged;
    };
    let roll = angle as i64;
    match withstood(curve, wind, roll) {
        Some(net) => Gust::Net { roll, net },
        None => Gust::Failed,
    }
}
