// The eight criteria, in the set that the weather chose: from the loaded ship to eight verdicts and eleven figures.
// The curve at each tenth of a degree and the area up to each are worked out once; every lever, angle and area is taken from them.
#![tactic(auto)]

ghost use Rattle.std.specs.Prelude.{◌≡◌};
ghost use Rattle.rules.specs.Report.{judgement};
ghost use Rattle.rules.specs.Ranges.{Fair};
ghost use Rattle.book.specs.Book.{loaded_of, judgement_of};

mod eighth;
mod figures;
mod measures;
mod righting;
mod sets;
mod verdicts;

use book::{Afloat, Judgement, Loaded};
use measures::Measures;
use sets::Criteria;

pub fn judge(c: Loaded) -> Judgement
    requires { Fair (loaded_of c) }
    ensures { result ≡ judgement_of (judgement (loaded_of c)) }
{
    let set = Criteria::from(c.weather.set);
    let ship = Afloat::new(c);
    let measures = Measures::of(ship, set.from);
    let verdicts = measures.verdicts(set);
    let figures = measures.figures();
    Judgement { verdicts, figures }
}
