// C1 or C6: the weather of a condition, and the set of criteria that its tag chooses.
ghost use Rattle.std.specs.Prelude.{◌≡◌, length};
ghost use Rattle.rules.specs.Blocks.{values, weather, ok_weather};
ghost use Rattle.rules.specs.Walk.{weather_at};
ghost use Rattle.book.specs.Book.{set_of, weather_of, answered, plain_weather};

use book::{Fault, Place, Refusal, Set, Weather};
use numbers::{fits, number_at};

// 'C1's twelve bytes', whichever the set.
fn read_weather(set: Set, body: &[u8]) -> Weather
    requires { length body.now ≡ 12 }
    ensures { weather_of result ≡ record { set = set_of set; sky = (weather (set_of set)).named (values (weather (set_of set)).fields body.now) } }
{
    Weather {
        set,
        wind: number_at::<4>(body, 0),
        z: number_at::<2>(body, 4),
        cb: number_at::<2>(body, 6),
        flooding: number_at::<2>(body, 8),
        deck: number_at::<2>(body, 10),
    }
}

#[tactic(auto, using(crate::proofs::Limits::ok_weather_lem))]
fn weather_fits(w: Weather) -> bool
    ensures { result ≡ ok_weather (weather_of w) }
{
    fits(w.wind, 0, 300_000)
        && fits(w.z, 0, 60_000)
        && fits(w.cb, 200, 1_000)
        && fits(w.flooding, 0, 600)
        && fits(w.deck, 1, 600)
}

// The weather of a condition as it begins, at offset 3: 4, 3, 6. Its tag is C1, or C6 'in C1's place'.
pub fn weather_at(tag: u8, body: &[u8], line: usize) -> Result<Weather, Refusal>
    ensures { result ≡ answered plain_weather (weather_at line tag body.now) }
{
    let place = Place { line, offset: 3 };
    let Ok(set) = Set::try_from(tag) else {
        return Err(Refusal::at(Fault::NotAllowed, place));
    };
    if body.len() != 12 {
        return Err(Refusal::at(Fault::WrongLength, place));
    }
    let weather = read_weather(set, body);
    if !weather_fits(weather) {
        return Err(Refusal::at(Fault::OutsideLimits, place));
    }
    Ok(weather)
}
