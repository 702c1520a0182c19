// Blocks: how a block begins, and the blocks of fixed size. Each answers with its values by name, or with the refusal and its place:
// 'at each block 2, 4, 3, 5, 6', and at a row 10.
#![tactic(auto)]

pub mod entries;
pub mod frame;
pub mod row;
pub mod ship;
pub mod weather;

ghost use Rattle.std.specs.Prelude.{◌≡◌};
ghost use Rattle.rules.specs.Walk.{header};
ghost use Rattle.blocks.specs.BlockAnswers.{begun_of};

use numbers::number_at;

// The tag, and the length of the body, which lies inside the parent.
#[derive(Clone, Copy)]
pub struct Head {
    pub tag: u8,
    pub len: usize,
}

// None is 2: 'one or two bytes left where a block would begin, or a block's length runs past its parent'. `s` is what is left of the parent.
pub fn header(s: &[u8]) -> Option<Head>
    ensures { result ≡ begun_of (header 0 0 s.now) }
{
    if s.len() < 3 {
        return None;
    }
    let len = number_at::<2>(s, 1) as usize;
    if s.len() - 3 < len {
        return None;
    }
    Some(Head { tag: s[0], len })
}
