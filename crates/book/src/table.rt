// The KN table of a text: its rows, first to last.
ghost use Rattle.std.specs.Prelude.{◌≡◌, ◌<◌, ◌≤◌, [], ◌∷◌, ◌++◌, length};
ghost use Rattle.rules.specs.Layout.{most_rows};

use super::Row;
use std::marker::Model;

// '2 to 40 A2.'
pub const MOST_ROWS: usize = 40;

// They lie in the value itself, and the places beyond them are blank: no heap, and a table is copied as any plain data is.
#[derive(Clone, Copy)]
pub struct Table {
    rows: [Row; MOST_ROWS],
    count: usize,
}

impl Model for Table {
    ghost use Rattle.std.specs.Prelude.{◌≡◌, ◌≤◌, List, length, take};
    ghost use Rattle.std.proofs.Common.{arith, length-take-le};
    ghost use Rattle.rules.specs.Layout.{most_rows};
    ghost use Rattle.book.specs.declared.Row.{Row};
    ghost use Rattle.book.specs.Tables.{filled};

    ghost Value = { List Row };

    ghost view = { λ t. take t.count t.rows };

    ghost invariant = { λ t. (t.count ≤ most_rows) × (length t.rows ≡ most_rows) × (filled (take t.count t.rows) ≡ t.rows) };

    ghost inverse = { λ rs. record { rows = filled rs; count = length rs } };

    ghost inverse_ok = { λ t h i. record { rows = h.2 i; count = length-take-le t.count t.rows (omega (arith, h.0, h.1)) i } };
}

impl Table {
    pub fn new() -> Self
        ensures { result ≡ [] }
    {
        Table {
            rows: [Row::default(); MOST_ROWS],
            count: 0,
        }
    }

    // One more, the last.
    pub fn push(&mut self, row: Row)
        requires { length self.old < most_rows }
        ensures { self.new ≡ self.old ++ row ∷ [] }
    {
        self.rows[self.count] = row;
        self.count += 1;
    }

    pub fn len(&self) -> usize
        ensures value { result ≡ length self.now }
        ensures fits { result ≤ most_rows }
    {
        self.count
    }

    pub fn as_slice(&self) -> &[Row]
        ensures value { result.now ≡ self.now }
        ensures fits { length result.now ≤ most_rows }
    {
        &self.rows[..self.count]
    }
}
