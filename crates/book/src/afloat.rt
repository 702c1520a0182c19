// The loaded ship within the ranges in which it is judged.
ghost use Rattle.std.specs.Prelude.{◌≡◌};
ghost use Rattle.rules.specs.Ranges.{Fair};
ghost use Rattle.book.specs.Book.{loaded_of};

use super::Loaded;

// What is known of each loaded ship that a reading within its limits gives: no sum and no quotient of the judgement leaves the machine's numbers.
#[derive(Clone, Copy)]
pub struct Afloat {
    pub loaded: Loaded,
    pub ghost fair: { Fair (loaded_of loaded) },
}

impl Afloat {
    pub fn new(loaded: Loaded) -> Self
        requires { Fair (loaded_of loaded) }
        ensures { result.loaded ≡ loaded }
    {
        Afloat { loaded }
    }
}
