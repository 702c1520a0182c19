// Division with its exact rounding, the straight line between points, tables of points, and the greatest number whose square fits.
#![tactic(auto)]

ghost use Rattle.std.specs.Prelude.{◌≡◌, true, ◌*◌, ◌^◌, ◌≤◌, ◌<◌, leb, pos, nat_abs, ◌<ℤ◌};
ghost use Rattle.rules.specs.Rounding.{ceil, ceil_z, up, line, table, greatest};
ghost use Rattle.rounding.specs.Points.{Between, way_of, point_of, points_of, tabled};

// n / d, rounded up.
#[tactic(auto, using(crate::proofs::Quotients::div_ceil_is))]
pub fn ceil(n: u64, d: u64) -> u64
    requires { 0 < d }
    ensures { result ≡ ceil n d }
{
    n.div_ceil(d)
}

// a / d, rounded up, either side of zero.
pub fn ceil_signed(a: i64, d: i64) -> i64
    requires { pos 0 <ℤ d }
    ensures { result ≡ ceil_z a (nat_abs d) }
{
    let q = a / d;
    if 0 < a % d { q + 1 } else { q }
}

// A point of a table: at this place, this value.
#[derive(Clone, Copy)]
pub struct Point {
    pub place: u64,
    pub value: u64,
}

// Which way a value is rounded.
#[derive(Clone, Copy)]
pub enum Way {
    Down,
    Up,
}

// The straight line through two points at x, rounded.
pub fn line(from: Point, to: Point, x: u64, way: Way) -> u64
    requires { Between from to x }
    ensures { result ≡ line (way_of way) (point_of from) (point_of to) x }
{
    let gap = to.place - from.place;
    let span = from.value * (to.place - x) + to.value * (x - from.place);
    match way {
        Way::Down => span / gap,
        Way::Up => ceil(span, gap),
    }
}

// Any table of constant points: linear between points, flat beyond, rounded up.
pub fn table_up(points: &[Point], x: u64) -> u64
    requires { tabled points.now ≡ true }
    ensures { result ≡ table up (points_of points.now) x }
{
    let Some((&first, others)) = points.split_first() else {
        return 0;
    };
    let at = x.max(first.place);
    let mut from = first;
    for &to in others {
        if at < to.place {
            return line(from, to, at, Way::Up);
        }
        from = to;
    }
    from.value
}

// The greatest n up to `top` with n² a <= b, by halving.
pub fn greatest_square(a: u64, b: u64, top: u64) -> u64
    requires { (top ≤ 2000) × (top * top * a < 2 ^ 64) }
    ensures { result ≡ greatest (λ n. leb (n * n * a) b) top }
{
    let mut low = 0;
    let mut high = top + 1;
    while 1 < high - low {
        let middle = (low + high) / 2;
        if middle * middle * a <= b {
            low = middle;
        } else {
            high = middle;
        }
    }
    low
}
