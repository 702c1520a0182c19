// How far a text has been read, line by line: what is due next, or the first fault; and the condition lines, which are counted wherever
// they stand.
ghost use Rattle.std.specs.Prelude.{◌≡◌, ◌<◌};
ghost use Rattle.reading.specs.Held.{OfLine};
ghost use Rattle.reading.specs.Moved.{after_ship, after_row, moved_rows, moved_conditions, moved, one_more, tallied};

use super::held::Held;
use book::{Refusal, Row, Ship};

// 'Up to 24 condition lines', behind '2 to 40 A2'.
const MOST_CONDITIONS: usize = 24;

const FEWEST_ROWS: usize = 2;

#[derive(Clone, Copy)]
pub enum State {
    // The ship's frame is awaited.
    Awaited,
    // The ship is read, and rows, of which the last has this W.
    Rows { ship: Ship, last: u64 },
    // A condition line has come in its place.
    Conditions(Ship),
    // The first fault for the whole text is met. What follows can only be no line, or a 25th condition line.
    Refused(Refusal),
}

// A line moves the state on, and may tell a row.
#[derive(Clone, Copy)]
pub struct Moved {
    pub state: State,
    pub row: Option<Row>,
}

fn after_ship(read: Result<Ship, Refusal>) -> State
    ensures { result ≡ after_ship read }
{
    match read {
        Ok(ship) => State::Rows { ship, last: 0 },
        Err(refusal) => State::Refused(refusal),
    }
}

fn after_row(ship: Ship, read: Result<Row, Refusal>) -> Moved
    ensures { result ≡ after_row ship read }
{
    match read {
        Ok(row) => Moved {
            state: State::Rows {
                ship,
                last: row.mass,
            },
            row: Some(row),
        },
        Err(refusal) => Moved {
            state: State::Refused(refusal),
            row: None,
        },
    }
}

// Where a row is due, or from the second row on a condition line.
fn row_line(ship: Ship, last: u64, held: Held, rows: usize) -> Moved
    ensures { OfLine held.entry (λ line l. result ≡ moved_rows ship last rows line l) }
{
    if held.begins_a3() && FEWEST_ROWS <= rows {
        return Moved {
            state: State::Conditions(ship),
            row: None,
        };
    }
    after_row(ship, held.row(rows, last))
}

// Behind a condition line only others: 2, 4.
#[tactic(auto, using(crate::proofs::Fronts::one_more_line, crate::proofs::Fronts::other_line))]
fn condition_line(ship: Ship, held: Held) -> State
    ensures { OfLine held.entry (λ line l. result ≡ moved_conditions ship line l) }
{
    if held.begins_a3() {
        State::Conditions(ship)
    } else {
        State::Refused(held.misplaced())
    }
}

impl State {
    // Behind a line, with so many rows before it.
    pub fn moved(self, held: Held, rows: usize) -> Moved
        ensures { OfLine held.entry (λ line l. result ≡ moved self rows line l) }
    {
        let state = match self {
            State::Awaited => after_ship(held.ship()),
            State::Rows { ship, last } => return row_line(ship, last, held, rows),
            State::Conditions(ship) => condition_line(ship, held),
            State::Refused(_) => self,
        };
        Moved { state, row: None }
    }
}

// ---- the condition lines
// How many there are so far, wherever they stand; and the number of the 25th, once it has come.
#[derive(Clone, Copy)]
pub struct Tally {
    pub conditions: usize,
    pub over: Option<usize>,
}

impl Tally {
    // One more. 'A 25th condition line gives 5 there.'
    fn one_more(self, line: usize) -> Self
        requires { self.conditions < line }
        ensures { result ≡ one_more self line }
    {
        let over = if self.conditions == MOST_CONDITIONS {
            Some(line)
        } else {
            self.over
        };
        Tally {
            conditions: self.conditions + 1,
            over,
        }
    }

    // Behind a line.
    pub fn tallied(self, held: Held) -> Self
        requires { self.conditions < held.line }
        ensures { OfLine held.entry (λ line l. result ≡ tallied self line l) }
    {
        if held.begins_a3() {
            self.one_more(held.line)
        } else {
            self
        }
    }
}
