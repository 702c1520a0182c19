// The levers at the stations, y at each tenth of a degree, and the areas under it, each worked out once.
ghost use Rattle.std.specs.Prelude.{◌≡◌, ◌-◌, ◌*◌, ◌≤◌, ◌<◌, ◌^◌, get_or, pos, nat_abs, ◌+ℤ◌, ◌*ℤ◌};
ghost use Rattle.std.proofs.Math.IntN.{sub_ℕ};
ghost use Rattle.rules.specs.Loading.{tenths};
ghost use Rattle.rules.specs.Curve.{sines, lever as leverOf};
ghost use Rattle.curve.specs.Levers.{Sized, Within, most_g, most_y, levers_of, straight, Holds, held, up_to};

// In 1/100,000.
const SINES: [u64; 13] = [
    0, 8716, 17365, 25882, 34202, 42262, 50000, 57358, 64279, 70711, 76604, 81915, 86603,
];

// g at a station.
fn lever(kn: u64, kg: u64, i: usize) -> i64
    requires { (kn < 2 ^ 16) × (kg ≤ 600_000) × (i < 13) }
    ensures { result ≡ sub_ℕ (1_000_000 * kn) (kg * get_or sines i 0) }
{
    let over = 1_000_000 * kn;
    let under = kg * SINES[i];
    over as i64 - under as i64
}

// g at each station.
fn levers(kn: [u64; 13], kg: u64) -> [i64; 13]
    requires { Sized kn kg }
    ensures { result ≡ levers_of kn kg }
{
    let mut g = [0i64; 13];
    for i in 0..13 {
        g[i] = lever(kn[i], kg, i);
    }
    g
}

// 50 times the straight-line value between two stations, m tenths past the first.
fn fifty(a: i64, b: i64, m: u64) -> i64
    requires { (nat_abs a ≤ most_g) × (nat_abs b ≤ most_g) × (m ≤ 50) }
    ensures { result ≡ pos (50 - m) *ℤ a +ℤ pos m *ℤ b }
{
    let left = (50 - m) as i64;
    let past = m as i64;
    left * a + past * b
}

// y at each tenth: at the last one the last station's, before it between two stations.
fn each_tenth(g: [i64; 13], y: &mut [i64; 601])
    requires { Within most_g g }
    ensures { Holds (straight g) y.new }
{
    let end = fifty(g[11], g[12], 50);
    y[600] = end;
    for t in 0..600 {
        y[t] = fifty(g[t / 50], g[t / 50 + 1], (t % 50) as u64);
    }
}

// The curve of the loaded ship: y at each tenth.
pub fn curve(kn: [u64; 13], kg: u64, y: &mut [i64; 601])
    requires { Sized kn kg }
    ensures { Holds (leverOf tenths kn kg) y.new }
{
    let g = levers(kn, kg);
    each_tenth(g, y);
}

// The area from 0 to each tenth.
pub fn areas(y: &[i64; 601], area: &mut [i64; 601])
    requires { Within most_y y.now }
    ensures { Holds (up_to (held y.now)) area.new }
{
    area[0] = 0;
    for t in 0..600 {
        area[t + 1] = area[t] + (y[t] + y[t + 1]);
    }
}
