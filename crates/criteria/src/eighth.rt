// What the report says of criterion 8: its verdict, the roll and the net area.
ghost use Rattle.std.specs.Prelude.{◌≡◌};
ghost use Rattle.criteria.specs.Figures.{eighth_of};

use book::Verdict;
use gust::Gust;

#[derive(Clone, Copy)]
pub struct Eighth {
    pub verdict: Verdict,
    pub roll: i64,
    pub net: i64,
}

// 'The last two are 0 where 8 is not judged, or phi0 or u is none.'
impl From<Gust> for Eighth {
    ghost from_gives = { λ g e. e ≡ eighth_of g };

    fn from(gust: Gust) -> Eighth {
        match gust {
            Gust::NotJudged => Eighth {
                verdict: Verdict::NotJudged,
                roll: 0,
                net: 0,
            },
            Gust::Failed => Eighth {
                verdict: Verdict::Fail,
                roll: 0,
                net: 0,
            },
            Gust::Net { roll, net } => Eighth {
                verdict: Verdict::from(net >= 0),
                roll,
                net,
            },
        }
    }
}
