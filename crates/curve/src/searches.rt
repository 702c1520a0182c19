// What is looked for along the curve, tenth by tenth from 0 to 600: the greatest lever, the first tenth that reaches a level, the last that stays at it.
ghost use Rattle.std.specs.Prelude.{◌≡◌, true, ◌-◌, ◌≤◌, pos};
ghost use Rattle.std.specs.Int.Signed.{le_z};
ghost use Rattle.rules.specs.Rounding.{peak as peakOf};
ghost use Rattle.rules.specs.Curve.{y as yOf};
ghost use Rattle.rules.specs.Criteria.{reaches as reachesOf};
ghost use Rattle.rules.specs.Roll.{stays as stays_of};
ghost use Rattle.curve.specs.Heeled.{heeled, not_past};

use super::Curve;

impl<'a> Curve<'a> {
    // The first tenth of from..=to with the greatest lever.
    pub fn peak(&self, from: usize, to: usize) -> usize
        requires { (from ≤ to) × (to ≤ 600) }
        ensures { result ≡ peakOf (λ t. yOf (heeled self.now) (pos t)) from (to - from) }
    {
        let mut best = from;
        for t in from + 1..to + 1 {
            if self.y(best) < self.y(t) {
                best = t;
            }
        }
        best
    }

    // The first tenth of from..=to with a lever at or above the level.
    pub fn reaches(&self, level: i64, from: usize, to: usize) -> Option<usize>
        requires { to ≤ 600 }
        ensures { result ≡ not_past to (reachesOf (yOf (heeled self.now)) level from to) }
    {
        for t in from..to + 1 {
            if level <= self.y(t) {
                return Some(t);
            }
        }
        None
    }

    // The last tenth up to which the lever stays at or above the level from `from` on, not beyond `to`: tenth by tenth from station to station, and both loops are left at
    // the first tenth below.
    pub fn stays(&self, level: i64, from: usize, to: usize) -> usize
        requires { (from ≤ to) × (to ≤ 600) × (le_z level (yOf (heeled self.now) (pos from)) ≡ true) }
        ensures { result ≡ stays_of (yOf (heeled self.now)) level from to }
    {
        let mut last = from;
        'out: for station in (from + 1) / 50..13 {
            let first = station * 50;
            for t in first.max(from + 1)..first + 50 {
                if to < t {
                    break 'out;
                }
                if self.y(t) < level {
                    break 'out;
                }
                last = t;
            }
        }
        last
    }
}
