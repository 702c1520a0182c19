// Each figure against its limit, over any set of criteria.
ghost use Rattle.std.specs.Prelude.{◌≡◌, map};
ghost use Rattle.rules.specs.Criteria.{passes7};
ghost use Rattle.rules.specs.Report.{judgement};
ghost use Rattle.book.specs.Book.{loaded_of, verdict_of};
ghost use Rattle.criteria.specs.Figures.{criteria_of, least_of};

use super::measures::Measures;
use super::sets::Criteria;
use book::Verdict;

// At least so much, where the set uses the slot.
fn at_least(limit: Option<i64>, figure: i64) -> Verdict
    ensures { result ≡ least_of limit figure }
{
    match limit {
        Some(limit) => Verdict::from(limit <= figure),
        None => Verdict::Unused,
    }
}

impl Measures {
    // 7: none fails.
    fn upright(&self, set: Criteria) -> bool
        requires { set ≡ criteria_of (loaded_of self.now.ship.loaded) }
        ensures { result ≡ passes7 (loaded_of self.now.ship.loaded) }
    {
        let Some(phi0) = self.wind.phi0 else {
            return false;
        };
        let deck = self.ship.loaded.weather.deck as usize;
        if set.heel < phi0 {
            return false;
        }
        if set.deck {
            return 10 * phi0 <= 8 * deck;
        }
        true
    }

    // A curve that ends before 4 looks fails it, as its figure is 0.
    pub fn verdicts(&self, set: Criteria) -> [Verdict; 8]
        requires { set ≡ criteria_of (loaded_of self.now.ship.loaded) }
        ensures { result ≡ map verdict_of (judgement (loaded_of self.now.ship.loaded)).verdicts }
    {
        let righting = self.righting;
        [
            at_least(set.area1, righting.area1),
            at_least(set.area2, righting.area2),
            Verdict::from(set.area3 <= righting.area3),
            Verdict::from(set.lever <= righting.lever),
            at_least(set.angle, righting.angle),
            Verdict::from(set.gm <= righting.gm),
            Verdict::from(self.upright(set)),
            self.eighth.verdict,
        ]
    }
}
