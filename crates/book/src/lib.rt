// The ship's book in plain data: what is read of a text and handed on by value, with names from document 01; and the refusals, by name.
// Lengths are millimetres, but a KG is tenths of one; masses kilograms, angles tenths of a degree.
#![tactic(auto)]

mod afloat;
mod table;

ghost use Rattle.std.specs.Prelude.{◌≡◌};
ghost use Rattle.book.specs.Book.{refusal, nowhere, fault_number, verdict_value, passed, bilge_told, set_told};

pub use afloat::Afloat;
pub use table::{MOST_ROWS, Table};

// ---- refusals
// Why a text or a condition is not judged: document 01's numbers sent back, and request 4's.
#[derive(Clone, Copy, Debug, PartialEq, Eq)]
pub enum Fault {
    // Over the limit of characters, or no line.
    NoLine = 1,
    // A block runs past its parent.
    Overrun = 2,
    WrongLength = 3,
    NotAllowed = 4,
    // A block is owed, or one too many stands there.
    Owed = 5,
    OutsideLimits = 6,
    OutsideTable = 7,
    KgTooHigh = 8,
    // The report buffer is too short.
    NoRoom = 9,
    TypingSlip = 10,
}

impl From<Fault> for u8 {
    ghost from_gives = { λ f n. n ≡ fault_number f };

    fn from(fault: Fault) -> u8 {
        fault as u8
    }
}

// 'Line from 1, and the byte offset of the block's tag in that line.'
#[derive(Clone, Copy, Debug, PartialEq, Eq)]
pub struct Place {
    pub line: usize,
    pub offset: usize,
}

// What is sent back for a text or a condition that is not judged.
#[derive(Clone, Copy, Debug, PartialEq, Eq)]
pub struct Refusal {
    pub fault: Fault,
    pub place: Place,
}

impl Refusal {
    pub fn at(fault: Fault, place: Place) -> Self
        ensures { result ≡ record { fault = fault; place = place } }
    {
        Refusal { fault, place }
    }

    // At the start of a line.
    pub fn in_line(fault: Fault, line: usize) -> Self
        ensures { result ≡ record { fault = fault; place = record { line = line; offset = 0 } } }
    {
        Refusal {
            fault,
            place: Place { line, offset: 0 },
        }
    }
}

// A fault that has no place in the text.
impl From<Fault> for Refusal {
    ghost from_gives = { λ f r. r ≡ nowhere f };

    fn from(fault: Fault) -> Refusal {
        Refusal {
            fault,
            place: Place { line: 0, offset: 0 },
        }
    }
}

// ---- the ship and the table
#[derive(Clone, Copy, Debug, PartialEq, Eq)]
pub enum Bilge {
    Round = 0,
    Sharp = 1,
}

// '0 round, 1 sharp'; 6 for any other.
impl TryFrom<u8> for Bilge {
    type Error = Fault;

    ghost try_from_gives = { λ n r. r ≡ bilge_told n };

    fn try_from(n: u8) -> Result<Self, Fault> {
        match n {
            0 => Ok(Bilge::Round),
            1 => Ok(Bilge::Sharp),
            _ => Err(Fault::OutsideLimits),
        }
    }
}

// A1.
#[derive(Clone, Copy)]
pub struct Ship {
    pub length: u64,
    pub breadth: u64,
    pub keel: u64,
    pub bilge: Bilge,
}

// A2: one row of the KN table.
#[derive(Clone, Copy, Default)]
pub struct Row {
    pub mass: u64,
    pub draught: u64,
    pub km: u64,
    pub kn: [u16; 13],
}

// ---- a condition
// The sets of criteria.
#[derive(Clone, Copy, Debug, PartialEq, Eq)]
pub enum Set {
    Code,
    Timber,
}

// The tag chooses the set: C1 the Code's, C6 the one for timber on deck; 4 for any other: 'tag not allowed there'.
impl TryFrom<u8> for Set {
    type Error = Fault;

    ghost try_from_gives = { λ t r. r ≡ set_told t };

    fn try_from(tag: u8) -> Result<Self, Fault> {
        match tag {
            0xC1 => Ok(Set::Code),
            0xC6 => Ok(Set::Timber),
            _ => Err(Fault::NotAllowed),
        }
    }
}

// C1 or C6.
#[derive(Clone, Copy)]
pub struct Weather {
    pub set: Set,
    pub wind: u64,
    pub z: u64,
    pub cb: u64,
    pub flooding: u64,
    pub deck: u64,
}

// What the entries add up to: how many, masses, mass moments, free surface moments.
#[derive(Clone, Copy)]
pub struct Sums {
    pub count: u64,
    pub mass: u64,
    pub moment: u64,
    pub free: u64,
}

// The loaded ship: the displacement W, the corrected KG, and what the table gives at W.
#[derive(Clone, Copy)]
pub struct Loaded {
    pub ship: Ship,
    pub weather: Weather,
    pub w: u64,
    pub kg: u64,
    pub draught: u64,
    pub km: u64,
    pub kn: [u64; 13],
}

// ---- the judgement
// '0 fail, 1 pass, 2 not judged, 3 refused'; '4, unused' (request 2).
#[derive(Clone, Copy, Debug, PartialEq, Eq)]
pub enum Verdict {
    Fail = 0,
    Pass = 1,
    NotJudged = 2,
    Refused = 3,
    Unused = 4,
}

impl From<bool> for Verdict {
    ghost from_gives = { λ b v. v ≡ passed b };

    fn from(passes: bool) -> Verdict {
        if passes { Verdict::Pass } else { Verdict::Fail }
    }
}

impl From<Verdict> for u8 {
    ghost from_gives = { λ v n. n ≡ verdict_value v };

    fn from(verdict: Verdict) -> u8 {
        verdict as u8
    }
}

// Eight verdicts and eleven figures.
#[derive(Clone, Copy)]
pub struct Judgement {
    pub verdicts: [Verdict; 8],
    pub figures: [i64; 11],
}
