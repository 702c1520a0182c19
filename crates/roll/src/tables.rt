// The tables of the roll, in thousandths, s in ten-thousandths: at each place, its value.
use rounding::Point;

macro_rules! points {
    ($($place:literal => $value:expr),* $(,)?) => {
        [$(Point { place: $place, value: $value }),*]
    };
}

// k from the keel index.
pub const K: [Point; 8] = points![
    0 => 1000,
    1000 => 980,
    1500 => 950,
    2000 => 880,
    2500 => 790,
    3000 => 740,
    3500 => 720,
    4000 => 700,
];

// X1 from b.
pub const X1: [Point; 11] = points![
    2400 => 1000,
    2500 => 980,
    2600 => 960,
    2700 => 950,
    2800 => 930,
    2900 => 910,
    3000 => 900,
    3100 => 880,
    3200 => 860,
    3400 => 820,
    3500 => 800,
];

// X2 from the block coefficient.
pub const X2: [Point; 6] = points![
    450 => 750,
    500 => 820,
    550 => 890,
    600 => 950,
    650 => 970,
    700 => 1000,
];

// s from the period.
pub const S: [Point; 8] = points![
    600 => 1000,
    700 => 980,
    800 => 930,
    1200 => 650,
    1400 => 530,
    1600 => 440,
    1800 => 380,
    2000 => 350,
];
