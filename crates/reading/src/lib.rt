// A whole text: line after line is checked and counted, the ship and the rows are read, and each condition line is left for itself.
// Every character is looked at once, an LF and the one behind it twice; those of a condition line once more when it is read.
#![tactic(auto)]

mod held;
mod state;

ghost use Rattle.std.specs.Prelude.{◌≡◌, ◌≤◌, length};
ghost use Rattle.rules.specs.Booklet.{counted_lines};
ghost use Rattle.text.specs.Line.{decoded, over};
ghost use Rattle.frames.specs.Sizes.{condition_bytes};
ghost use Rattle.reading.specs.TextAnswers.{told, refused_read, no_line, condition_line};
ghost use Rattle.reading.specs.Moved.{finished};

use book::{Fault, Refusal, Ship, Table};
use frames::{Condition, LongLine, MOST_BYTES};
use held::Held;
pub use state::{Moved, State, Tally};

// The bytes of the ship's line; of a row's, of which no ship and no row has more; of the longest condition's that is not refused for its length.
const SHIP_BYTES: usize = 16;

const ROW_BYTES: usize = 37;

pub const CONDITION_BYTES: usize = 3 + MOST_BYTES;

// The characters of the ship's line and of a row's, the LF among them.
const SHIP_LINE: usize = 2 * SHIP_BYTES + 1;

const ROW_LINE: usize = 2 * ROW_BYTES + 1;

// What a text says before its conditions: the ship, the rows, and where the first condition line begins.
#[derive(Clone, Copy)]
pub struct Front {
    pub ship: Ship,
    pub rows: Table,
    pub at: usize,
}

// How many condition lines there are, none where 1 or the 25th refuses the text; and what was read before them.
#[derive(Clone, Copy)]
pub struct TextRead {
    pub conditions: usize,
    pub front: Result<Front, Refusal>,
}

// A condition line, and how many characters it takes with its LF; none where there is no line.
#[derive(Clone, Copy)]
pub struct ConditionLine {
    pub read: Result<Condition, Refusal>,
    pub taken: usize,
}

impl TextRead {
    // Refused as a whole, with so many condition lines counted.
    fn refused(refusal: Refusal, conditions: usize) -> Self
        ensures { result ≡ refused_read refusal conditions }
    {
        TextRead {
            conditions,
            front: Err(refusal),
        }
    }
}

// What a text comes to where it ends, before this line. 5: 'empty text', 'no A3', at the number of lines; 'a 25th condition line' goes before.
fn finish(state: State, rows: Table, line: usize, tally: Tally) -> TextRead
    requires { 1 ≤ line }
    ensures { result ≡ finished state rows line tally }
{
    if let Some(over) = tally.over {
        return TextRead::refused(Refusal::in_line(Fault::Owed, over), 0);
    }
    let conditions = tally.conditions;
    match state {
        State::Awaited | State::Rows { .. } => {
            TextRead::refused(Refusal::in_line(Fault::Owed, line - 1), conditions)
        }
        State::Conditions(ship) => {
            let at = SHIP_LINE + ROW_LINE * rows.len();
            TextRead {
                conditions,
                front: Ok(Front { ship, rows, at }),
            }
        }
        State::Refused(refusal) => TextRead::refused(refusal, conditions),
    }
}

// A text of at most so many characters: what it says as a whole, or the refusal. 1 and the 25th condition line go before every refusal of a block, so that lines are read to the end.
pub fn read_text(text: &[u8], most: usize) -> TextRead
    ensures { result ≡ told (counted_lines most text.now) }
{
    if most < text.len() {
        return TextRead::refused(Fault::NoLine.into(), 0);
    }
    let mut bytes = [0u8; ROW_BYTES];
    let mut rest = text;
    let mut line: usize = 1;
    let mut tally = Tally {
        conditions: 0,
        over: None,
    };
    let mut state = State::Awaited;
    let mut rows = Table::new();
    loop {
        let Ok(read) = text::line_at(rest, &mut bytes) else {
            return TextRead::refused(Refusal::in_line(Fault::NoLine, line), 0);
        };
        let Some(n) = read else {
            return finish(state, rows, line, tally);
        };
        let held = Held::new(&bytes, n, line);
        let moved = state.moved(held, rows.len());
        tally = tally.tallied(held);
        state = moved.state;
        if let Some(row) = moved.row {
            rows.push(row);
        }
        rest = &rest[2 * n + 1..];
        line += 1;
    }
}

// ---- a condition line
// 1, where no line stands.
fn no_line(line: usize) -> ConditionLine
    ensures { result ≡ no_line line }
{
    ConditionLine {
        read: Err(Refusal::in_line(Fault::NoLine, line)),
        taken: 0,
    }
}

// The condition line at the front of a text, its first bytes to the front of a buffer. 'A3 over 4,096' needs no more of it than its head.
pub fn read_condition(text: &[u8], line: usize, bytes: &mut [u8]) -> ConditionLine
    requires { length bytes.old ≡ condition_bytes }
    ensures { (result ≡ condition_line line text.now) × (bytes.new ≡ over (decoded text.now) bytes.old) }
{
    let Some(n) = text::line_at(text, bytes).ok().flatten() else {
        return no_line(line);
    };
    let read = if CONDITION_BYTES < n {
        let long = LongLine {
            head: bytes,
            n,
            line,
        };
        Err(long.condition())
    } else {
        frames::condition_frame(&bytes[..n], line)
    };
    ConditionLine {
        read,
        taken: 2 * n + 1,
    }
}
