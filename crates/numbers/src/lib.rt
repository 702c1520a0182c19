// Numbers in bytes, 'big-endian and unsigned', limits, and the characters of digits: what the reading of blocks and of a stream, and
// the report, share.
#![tactic(auto)]

ghost use Rattle.std.specs.Prelude.{◌≡◌, ◌&&◌, ◌+◌, ◌<◌, ◌≤◌, ◌^◌, length, take, drop, leb};
ghost use Rattle.rules.specs.Numbers.{num};
ghost use Rattle.rules.specs.Text.{digit};

// The number in so many bytes, the highest first.
pub fn number_at<const BYTES: usize>(s: &[u8], at: usize) -> u64
    requires few { BYTES ≤ 8 }
    requires inside { at + BYTES ≤ length s.now }
    ensures value { result ≡ num (take BYTES (drop at s.now)) }
    ensures within { result < 256 ^ BYTES }
{
    let mut number = 0;
    for i in 0..BYTES {
        number = 256 * number + u64::from(s[at + i]);
    }
    number
}

// Within its limits.
pub fn fits(x: u64, low: u64, high: u64) -> bool
    ensures { result ≡ (leb low x && leb x high) }
{
    (low..=high).contains(&x)
}

// The character of a digit: '0' to '9' are 48 to 57, 'A' to 'F' 65 to 70.
pub fn character(n: u8) -> u8
    requires { n < 16 }
    ensures { result ≡ digit n }
{
    if n < 10 { 48 + n } else { 55 + n }
}
