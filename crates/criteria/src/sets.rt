// The sets of criteria: each is one value of `Criteria`, and no criterion asks which set it is.
ghost use Rattle.std.specs.Prelude.{◌≡◌};
ghost use Rattle.rules.specs.Blocks.{code, timber};
ghost use Rattle.rules.specs.Criteria.{limits_of};
ghost use Rattle.book.specs.Book.{set_of};
ghost use Rattle.criteria.specs.Figures.{plain_criteria};

use book::Set;

// The limits of 1 to 7 (areas and the lever in y units, angles in tenths of a degree, GM in tenths of a millimetre), none where the set does not use the slot;
// from which angle 4 looks, and whether the deck edge counts in 7.
#[derive(Clone, Copy)]
pub struct Criteria {
    pub area1: Option<i64>,
    pub area2: Option<i64>,
    pub area3: i64,
    pub lever: i64,
    pub angle: Option<i64>,
    pub gm: i64,
    pub heel: usize,
    pub from: usize,
    pub deck: bool,
}

impl Criteria {
    // The Code's: 0.055, 0.03 and 0.09 m·rad; 0.20 m, from 30° on; 25°; 150 mm; 16°.
    pub const CODE_AREA1: i64 = 3_151_268_000_000;

    pub const CODE_AREA2: i64 = 1_718_874_000_000;

    pub const CODE_AREA3: i64 = 5_156_621_000_000;

    pub const CODE_LEVER: i64 = 10_000_000_000;

    pub const CODE_FROM: usize = 300;

    pub const CODE_ANGLE: i64 = 250;

    pub const CODE_GM: i64 = 1500;

    pub const CODE_HEEL: usize = 160;

    // Timber's: 0.08 m·rad; 0.25 m, from 0 on; 100 mm; 16°.
    pub const TIMBER_AREA3: i64 = 4_583_663_000_000;

    pub const TIMBER_LEVER: i64 = 12_500_000_000;

    pub const TIMBER_FROM: usize = 0;

    pub const TIMBER_GM: i64 = 1000;

    pub const TIMBER_HEEL: usize = 160;

    pub fn code() -> Self
        ensures { result ≡ plain_criteria (limits_of code) }
    {
        Self {
            area1: Some(Self::CODE_AREA1),
            area2: Some(Self::CODE_AREA2),
            area3: Self::CODE_AREA3,
            lever: Self::CODE_LEVER,
            angle: Some(Self::CODE_ANGLE),
            gm: Self::CODE_GM,
            heel: Self::CODE_HEEL,
            from: Self::CODE_FROM,
            deck: true,
        }
    }

    // 'Slots 1, 2 and 5 read 4, unused'; 'deck edge ignored'.
    pub fn timber() -> Self
        ensures { result ≡ plain_criteria (limits_of timber) }
    {
        Self {
            area1: None,
            area2: None,
            area3: Self::TIMBER_AREA3,
            lever: Self::TIMBER_LEVER,
            angle: None,
            gm: Self::TIMBER_GM,
            heel: Self::TIMBER_HEEL,
            from: Self::TIMBER_FROM,
            deck: false,
        }
    }
}

// The set that the weather chose.
impl From<Set> for Criteria {
    ghost from_gives = { λ s c. c ≡ plain_criteria (limits_of (set_of s)) };

    fn from(set: Set) -> Criteria {
        match set {
            Set::Code => Criteria::code(),
            Set::Timber => Criteria::timber(),
        }
    }
}
