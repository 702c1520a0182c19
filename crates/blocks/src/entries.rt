// A block among the entries: C2 items, C3 and C5 tanks, and C4 groups as they begin.
ghost use Rattle.std.specs.Prelude.{◌≡◌, cond, ◌*◌, ◌≤◌, length};
ghost use Rattle.rules.specs.Blocks.{size, values, ok, tank, entry};
ghost use Rattle.rules.specs.Blocks as rules;
ghost use Rattle.rules.specs.Loading.{surface_counts};
ghost use Rattle.rules.specs.Walk.{load, nested, begun, block_at};
ghost use Rattle.book.specs.Book.{answered};
ghost use Rattle.blocks.specs.BlockAnswers.{tank_kind_of, load_of, plain_contents, plain_load, Within, sums_of_one, tag_told, plain_block};

use book::{Fault, Place, Refusal, Sums};
use numbers::{fits, number_at};

// The kinds of tank, C3 and C5.
#[derive(Clone, Copy)]
pub enum TankKind {
    Ordinary,
    Cargo,
}

// The kinds of entry.
#[derive(Clone, Copy)]
pub enum Kind {
    Item,
    Tank(TankKind),
}

// What a tag stands for among the entries.
#[derive(Clone, Copy)]
pub enum Tag {
    Entry(Kind),
    Group,
}

// The tags of 01's table and request 1's; 4: 'tag not allowed there'.
impl TryFrom<u8> for Tag {
    type Error = Fault;

    ghost try_from_gives = { λ t r. r ≡ tag_told t };

    fn try_from(tag: u8) -> Result<Self, Fault> {
        match tag {
            0xC2 => Ok(Tag::Entry(Kind::Item)),
            0xC3 => Ok(Tag::Entry(Kind::Tank(TankKind::Ordinary))),
            0xC4 => Ok(Tag::Group),
            0xC5 => Ok(Tag::Entry(Kind::Tank(TankKind::Cargo))),
            _ => Err(Fault::NotAllowed),
        }
    }
}

// A block among the entries: what an entry adds to the sums, or a group as it begins.
#[derive(Clone, Copy)]
pub enum Block {
    Entry(Sums),
    Group,
}

// ---- an entry
// What is in a tank.
#[derive(Clone, Copy)]
struct Contents {
    kind: TankKind,
    fill: u64,
    density: u64,
    inertia: u64,
}

// The values of an entry: mass and centre, and of a tank what is in it.
#[derive(Clone, Copy)]
struct Load {
    mass: u64,
    centre: u64,
    contents: Option<Contents>,
}

impl Contents {
    fn read(kind: TankKind, body: &[u8]) -> Self
        requires { length body.now ≡ 14 }
        ensures { result ≡ plain_contents (tank_kind_of kind) ((entry (tank (tank_kind_of kind))).named (values (entry (tank (tank_kind_of kind))).fields body.now)) }
    {
        Contents {
            kind,
            fill: number_at::<2>(body, 6),
            density: number_at::<2>(body, 8),
            inertia: number_at::<4>(body, 10),
        }
    }

    // '0 < fill < 980'; a cargo tank's free surface 'counts from fill 1 upward, 1,000 included'.
    fn surface_counts(self) -> bool
        ensures { result ≡ surface_counts (tank_kind_of self.kind) self.fill }
    {
        match self.kind {
            TankKind::Ordinary => 0 < self.fill && self.fill < 980,
            TankKind::Cargo => 0 < self.fill,
        }
    }

    // 'Free surface moment of a tank = 1000 x density x inertia if' it counts, 'else 0'.
    fn free_surface(self) -> u64
        requires { (self.density ≤ 2000) × (self.inertia ≤ 100000) }
        ensures { result ≡ cond (surface_counts (tank_kind_of self.kind) self.fill) (1000 * self.density * self.inertia) 0 }
    {
        if self.surface_counts() {
            1000 * self.density * self.inertia
        } else {
            0
        }
    }
}

impl Load {
    fn read(kind: Kind, body: &[u8]) -> Self
        requires { length body.now ≡ size (entry (load_of kind)).fields }
        ensures { result ≡ plain_load (load_of kind) ((entry (load_of kind)).named (values (entry (load_of kind)).fields body.now)) }
    {
        let contents = match kind {
            Kind::Item => None,
            Kind::Tank(k) => Some(Contents::read(k, body)),
        };
        Load {
            mass: number_at::<4>(body, 0),
            centre: number_at::<2>(body, 4),
            contents,
        }
    }

    // 'Fill 0 only with mass 0.'
    fn fits(self) -> bool
        ensures { (k : rules.Load) (v : rules.Values k) → self ≡ plain_load k v → result ≡ ok (entry k) v }
    {
        let limits = fits(self.mass, 0, 600_000_000) && fits(self.centre, 0, 60_000);
        let Some(tank) = self.contents else {
            return limits;
        };
        limits
            && fits(tank.fill, 0, 1_000)
            && fits(tank.density, 0, 2_000)
            && fits(tank.inertia, 0, 100_000)
            && (0 < tank.fill || self.mass == 0)
    }

    // Its mass by its centre, a tank's as an item's.
    fn moment(self) -> u64
        requires { (self.mass ≤ 600000000) × (self.centre ≤ 60000) }
        ensures { result ≡ self.mass * self.centre }
    {
        self.mass * self.centre
    }

    // What it adds to the sums.
    fn sums(self) -> Sums
        requires { Within self }
        ensures { (k : rules.Load) (v : rules.Values k) → self ≡ plain_load k v → result ≡ sums_of_one k v }
    {
        let free = match self.contents {
            None => 0,
            Some(tank) => tank.free_surface(),
        };
        Sums {
            count: 1,
            mass: self.mass,
            moment: self.moment(),
            free,
        }
    }
}

// ---- a block
#[tactic(auto, unfolding(rules::specs::Blocks::size))]
fn size(kind: Kind) -> usize
    ensures { result ≡ size (entry (load_of kind)).fields }
{
    match kind {
        Kind::Item => 6,
        Kind::Tank(_) => 14,
    }
}

// An entry of this kind, where `left` more may stand: 3, 5, 6.
fn leaf(kind: Kind, body: &[u8], place: Place, left: u64) -> Result<Block, Refusal>
    ensures { result ≡ answered plain_block (begun place.line 0 left place.offset body.now (load (load_of kind))) }
{
    if body.len() != size(kind) {
        return Err(Refusal::at(Fault::WrongLength, place));
    }
    if left == 0 {
        return Err(Refusal::at(Fault::Owed, place));
    }
    let load = Load::read(kind, body);
    if !load.fits() {
        return Err(Refusal::at(Fault::OutsideLimits, place));
    }
    Ok(Block::Entry(load.sums()))
}

// A group as it begins, with so many depths left: 5.
fn group(body: &[u8], place: Place, depth: u64) -> Result<Block, Refusal>
    ensures { result ≡ answered plain_block (begun place.line depth 0 place.offset body.now nested) }
{
    if depth == 0 || body.is_empty() {
        return Err(Refusal::at(Fault::Owed, place));
    }
    Ok(Block::Group)
}

// A block among the entries: 4, 3, 5, 6.
pub fn block_at(tag: u8, body: &[u8], place: Place, depth: u64, left: u64) -> Result<Block, Refusal>
    ensures { result ≡ answered plain_block (block_at place.line depth left place.offset tag body.now) }
{
    let Ok(tag) = Tag::try_from(tag) else {
        return Err(Refusal::at(Fault::NotAllowed, place));
    };
    match tag {
        Tag::Entry(kind) => leaf(kind, body, place, left),
        Tag::Group => group(body, place, depth),
    }
}
