// The figures of criteria 1 to 6.
ghost use Rattle.std.specs.Prelude.{◌≡◌};
ghost use Rattle.rules.specs.Criteria.{set, greatest_lever, angle_of_greatest, gm as gmOf};
ghost use Rattle.book.specs.Book.{loaded_of};
ghost use Rattle.curve.specs.Heeled.{heeled};
ghost use Rattle.criteria.specs.Figures.{righting_of};

use book::Afloat;
use curve::Curve;

// Areas and the greatest lever in y units, the angle of the greatest in tenths of a degree, GM in tenths of a millimetre.
#[derive(Clone, Copy)]
pub struct Righting {
    pub area1: i64,
    pub area2: i64,
    pub area3: i64,
    pub lever: i64,
    pub angle: i64,
    pub gm: i64,
}

// 4, from where the set looks: the lever at 5's angle if it is not before; a curve that ends before has the figure 0.
fn greatest_lever(curve: &Curve, from: usize, angle: usize) -> i64
    requires { (from ≡ (set (heeled curve.now)).from) × (angle ≡ angle_of_greatest (heeled curve.now)) }
    ensures { result ≡ greatest_lever (heeled curve.now) }
{
    let flooding = curve.flooding();
    if from <= angle {
        return curve.y(angle);
    }
    if flooding < from {
        return 0;
    }
    let at = curve.peak(from, flooding);
    curve.y(at)
}

// 6: KM - KG, KM in millimetres.
fn gm(c: &Afloat) -> i64
    ensures { result ≡ gmOf (loaded_of c.now.loaded) }
{
    (10 * c.loaded.km) as i64 - c.loaded.kg as i64
}

// The area from 30° on is what is left of the one to 40°: no area is worked out again.
pub fn measure(curve: &Curve, from: usize) -> Righting
    requires { from ≡ (set (heeled curve.now)).from }
    ensures { result ≡ righting_of (heeled curve.now) }
{
    let flooding = curve.flooding();
    let area1 = curve.area_to(flooding.min(300));
    let area3 = curve.area_to(flooding.min(400));
    let area2 = area3 - area1;
    let at = curve.peak(0, flooding);
    let angle = at as i64;
    let lever = greatest_lever(curve, from, at);
    let gm = gm(curve.ship);
    Righting {
        area1,
        area2,
        area3,
        lever,
        angle,
        gm,
    }
}
