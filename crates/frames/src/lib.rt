// Frames: the ship's, a row's, a condition's, and the entries with the groups within it. The first fault met ends the reading:
// each answer is taken, or its refusal is returned with its place.
#![tactic(auto)]

ghost use Rattle.std.specs.Prelude.{◌≡◌, ◌+◌, ◌-◌, ◌≤◌, length, IfOk};
ghost use Rattle.std.specs.Result.{result_map_both};
ghost use Rattle.rules.specs.Layout.{most_entries, most_bytes};
ghost use Rattle.rules.specs.Walk.{header, entries, load_at, inside, condition_in, ship_frame};
ghost use Rattle.rules.specs.Booklet.{row_at, condition_at};
ghost use Rattle.rules.specs.Parts.{part, head_at};
ghost use Rattle.book.specs.Book.{answered, plain_ship, plain_row};
ghost use Rattle.blocks.specs.BlockAnswers.{plain_head};
ghost use Rattle.frames.specs.Sums.{none, plus, Bounded};
ghost use Rattle.frames.specs.FrameAnswers.{on_top, plain_condition, due_of};

use blocks::entries::{Block, block_at};
use blocks::frame::Frame;
use blocks::row::row_in;
use blocks::ship::ship_in;
use blocks::weather::weather_at;
use book::{Fault, Place, Refusal, Row, Ship, Sums, Weather};
use cursor::Reader;

mod long;

pub use book::MOST_ROWS;
pub use long::LongLine;

// 'At most 200 items and tanks', 'at most 4 groups deep', 'at most 4,096 bytes'.
const MOST_ENTRIES: u64 = 200;

const MOST_DEPTH: u64 = 4;

pub const MOST_BYTES: usize = 4_096;

// A3: the weather, and what the entries add up to.
#[derive(Clone, Copy)]
pub struct Condition {
    pub weather: Weather,
    pub sums: Sums,
}

// ---- the entries
fn add(t: Sums, u: Sums) -> Sums
    requires { Bounded t × Bounded u × (t.count + u.count ≤ most_entries) }
    ensures { result ≡ plus t u }
{
    Sums {
        count: t.count + u.count,
        mass: t.mass + u.mass,
        moment: t.moment + u.moment,
        free: t.free + u.free,
    }
}

// The entries that `reader` stands at, on top of `t`, with so many depths left: one after the other, and those of a group, which lends its own body, before what stands after it.
fn entries(reader: Reader, depth: u64, t: Sums) -> Result<Sums, Refusal>
    requires { (reader.place.offset + length reader.src.now ≤ 3 + most_bytes) × Bounded t }
    ensures sums { result ≡ answered (on_top t) (entries reader.entry.place.line depth (most_entries - t.count) reader.entry.place.offset reader.entry.src.now) }
    ensures bounded { IfOk result Bounded }
{
    let mut sums = t;
    let mut rest = reader;
    while !rest.is_empty() {
        let head = rest.begins()?;
        let body = rest.body(head.len);
        let left = MOST_ENTRIES - sums.count;
        sums = match block_at(head.tag, body.src, rest.place, depth, left)? {
            Block::Entry(e) => add(sums, e),
            Block::Group => entries(body, depth - 1, sums)?,
        };
        rest = rest.rest(head.len);
    }
    Ok(sums)
}

// ---- the condition
// The entries of a condition, of which one is owed: 5.
fn load_at(reader: Reader) -> Result<Sums, Refusal>
    requires { reader.place.offset + length reader.src.now ≤ 3 + most_bytes }
    ensures { result ≡ answered (on_top none) (load_at reader.entry.place.line reader.entry.place.offset reader.entry.src.now) }
{
    if reader.is_empty() {
        return Err(Refusal::in_line(Fault::Owed, reader.place.line));
    }
    let nothing = Sums {
        count: 0,
        mass: 0,
        moment: 0,
        free: 0,
    };
    entries(reader, MOST_DEPTH, nothing)
}

// Inside a condition: the weather, and the load. 5: 'A3 empty'.
fn inside(frame: Frame) -> Result<Condition, Refusal>
    requires { frame.head.len ≤ most_bytes }
    ensures { result ≡ answered plain_condition (inside frame.entry.line (part 3 (3 + frame.entry.head.len) frame.entry.bytes.now)) }
{
    let line = frame.line;
    let len = frame.head.len;
    if len == 0 {
        return Err(Refusal::in_line(Fault::Owed, line));
    }
    let body = Reader::new(frame.bytes, Place { line, offset: 0 }).body(len);
    let head = body.begins()?;
    let weather = weather_at(head.tag, body.body(head.len).src, line)?;
    let sums = load_at(body.rest(head.len))?;
    Ok(Condition { weather, sums })
}

// A condition whose head is read: 3, 5, and what is inside.
#[tactic(auto, using(rules::proofs::walk::FrameExits::condition_longer, rules::proofs::walk::FrameExits::condition_over))]
fn condition_in(frame: Frame) -> Result<Condition, Refusal>
    ensures { result ≡ answered plain_condition (condition_in frame.entry.line (head_at 0xA3 frame.entry.head.len frame.entry.bytes.now)) }
{
    if !frame.fills_line() {
        return Err(Refusal::in_line(Fault::WrongLength, frame.line));
    }
    if MOST_BYTES < frame.head.len {
        return Err(Refusal::in_line(Fault::Owed, frame.line));
    }
    inside(frame)
}

// ---- the frames
// Which tag is due: the ship's, a row's with so many rows before it, or none, behind a condition line.
#[derive(Clone, Copy)]
pub enum Due {
    Ship,
    Row(usize),
    Nothing,
}

impl Due {
    // 4 for any other.
    fn is(self, tag: u8) -> bool
        ensures { result ≡ due_of self tag }
    {
        match self {
            Due::Ship => tag == 0xA1,
            Due::Row(rows) => tag == 0xA2 && rows < MOST_ROWS,
            Due::Nothing => false,
        }
    }
}

// The frame of a line, which begins at its offset 0.
fn frame_of(s: &[u8], line: usize) -> Result<Frame, Refusal>
    ensures head { result_map_both (λ f. f.head) (λ r. r) result ≡ answered plain_head (header line 0 s.now) }
    ensures of { IfOk result (λ f. (f.bytes ≡ s.entry) × (f.line ≡ line)) }
{
    let head = Reader::new(s, Place { line, offset: 0 }).begins()?;
    Ok(Frame {
        bytes: s,
        head,
        line,
    })
}

// The ship's: 2, 4, 3, 6.
pub fn ship_frame(s: &[u8], line: usize) -> Result<Ship, Refusal>
    ensures { result ≡ answered plain_ship (ship_frame line s.now) }
{
    let frame = frame_of(s, line)?;
    if !Due::Ship.is(frame.head.tag) {
        return Err(Refusal::in_line(Fault::NotAllowed, line));
    }
    ship_in(frame)
}

// One where a row is due, with so many rows before it, the last of them with W = last: 2, 4, 3, 6, 10.
pub fn row_frame(s: &[u8], line: usize, rows: usize, last: u64) -> Result<Row, Refusal>
    ensures { result ≡ answered plain_row (row_at line rows last s.now) }
{
    let frame = frame_of(s, line)?;
    if !Due::Row(rows).is(frame.head.tag) {
        return Err(Refusal::in_line(Fault::NotAllowed, line));
    }
    row_in(frame, last)
}

// A condition line: 2, 3, 5, and what is inside.
pub fn condition_frame(s: &[u8], line: usize) -> Result<Condition, Refusal>
    ensures { result ≡ answered plain_condition (condition_at line s.now) }
{
    let frame = frame_of(s, line)?;
    condition_in(frame)
}
