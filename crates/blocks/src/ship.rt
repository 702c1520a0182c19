// A1: the ship.
ghost use Rattle.std.specs.Prelude.{◌≡◌, length};
ghost use Rattle.rules.specs.Blocks.{values, ship};
ghost use Rattle.rules.specs.Walk.{fixed_in};
ghost use Rattle.rules.specs.Parts.{head_at};
ghost use Rattle.book.specs.Book.{answered, plain_ship};
ghost use Rattle.blocks.specs.BlockAnswers.{within_limits};

use crate::frame::Frame;
use book::{Bilge, Fault, Refusal, Ship};
use numbers::{fits, number_at};

// The ship, where each of its values is within its limits.
fn read_ship(body: &[u8]) -> Result<Ship, Fault>
    requires { length body.now ≡ 13 }
    ensures { result ≡ within_limits ship plain_ship (ship.named (values ship.fields body.now)) }
{
    let length = number_at::<4>(body, 0);
    let breadth = number_at::<4>(body, 4);
    let keel = number_at::<4>(body, 8);
    let bilge = Bilge::try_from(body[12])?;
    if fits(length, 24_000, 400_000) && fits(breadth, 3_000, 70_000) && fits(keel, 0, 20_000) {
        Ok(Ship {
            length,
            breadth,
            keel,
            bilge,
        })
    } else {
        Err(Fault::OutsideLimits)
    }
}

// A ship whose head is read: 3, 6.
pub fn ship_in(frame: Frame) -> Result<Ship, Refusal>
    ensures { result ≡ answered plain_ship (fixed_in frame.entry.line ship (head_at 0xA1 frame.entry.head.len frame.entry.bytes.now)) }
{
    if !frame.fills_line() || frame.head.len != 13 {
        return Err(Refusal::in_line(Fault::WrongLength, frame.line));
    }
    let Ok(ship) = read_ship(frame.body()) else {
        return Err(Refusal::in_line(Fault::OutsideLimits, frame.line));
    };
    Ok(ship)
}
