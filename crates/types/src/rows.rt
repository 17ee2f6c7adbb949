// The tables of the types' fields, fields 10 on, in the order of document 000's tables. They are proved to be those of the definitions,
// where each field has its name.

// A place that a type uses: its field's width in bits, its least and its greatest number, the k of its power 2 ^ -k, which is 0 where
// there is none, and whether it is signed.
#[derive(Clone, Copy)]
pub struct Place {
    pub width: usize,
    pub least: i64,
    pub most: i64,
    pub power: u8,
    pub signed: bool,
}

// An unsigned field of so many bits, from the least to the greatest number, without a power and with one.
macro_rules! unsigned {
    ($width:expr, $least:expr, $most:expr) => {
        unsigned!($width, $least, $most, 0)
    };
    ($width:expr, $least:expr, $most:expr, $power:expr) => {
        Place { width: $width, least: $least, most: $most, power: $power, signed: false }
    };
}

// An unsigned field that takes all that its bits hold, without a power and with one.
macro_rules! full {
    ($width:expr) => {
        full!($width, 0)
    };
    ($width:expr, $power:expr) => {
        unsigned!($width, 0, (1 << $width) - 1, $power)
    };
}

// A signed field, which takes all that its bits hold: its least number is the negative of its greatest.
macro_rules! signed {
    ($width:expr) => {
        signed!($width, 0)
    };
    ($width:expr, $power:expr) => {
        Place { width: $width, least: 1 - (1 << ($width - 1)), most: (1 << ($width - 1)) - 1, power: $power, signed: true }
    };
}

// How many four-year intervals N4 counts, and the days of one.
pub const INTERVALS: i64 = 31;

pub const INTERVAL_DAYS: i64 = 1461;

// A field of a day of the interval.
const DAY: Place = unsigned!(11, 1, INTERVAL_DAYS);

pub static TYPE10: [Place; 16] = [
    unsigned!(5, 1, INTERVALS), // N4
    DAY, // NT
    full!(3), // M
    full!(6), // frame size
    unsigned!(10, 0, 959), // tb
    unsigned!(8, 1, 255), // age of the ephemeris
    unsigned!(8, 1, 255), // age of the clock
    full!(2), // mode of the ephemeris
    full!(2), // mode of the clock
    signed!(5), // factor of the ephemeris
    signed!(5), // factor of the clock
    signed!(32, 38), // tau
    signed!(19, 48), // gamma
    signed!(15, 57), // beta
    signed!(40, 31), // tau_c
    signed!(13, 49), // its rate
];

pub static TYPE11: [Place; 7] = [
    signed!(40, 20), // x
    signed!(40, 20), // y
    signed!(40, 20), // z
    signed!(35, 30), // rate of x
    signed!(13, 10), // antenna's dx
    signed!(13, 10), // antenna's dy
    full!(3), // reserve
];

pub static TYPE12: [Place; 9] = [
    signed!(13, 10), // antenna's dz
    signed!(35, 30), // rate of y
    signed!(35, 30), // rate of z
    signed!(15, 39), // acceleration of x
    signed!(15, 39), // acceleration of y
    signed!(15, 39), // acceleration of z
    signed!(18, 38), // shift of L2
    signed!(30, 38), // shift of GPS
    full!(8), // reserve
];

pub static TYPE20: [Place; 15] = [
    full!(2), // orbit
    full!(6), // Ns
    full!(6), // EA
    DAY, // NA
    full!(5), // signals
    full!(3), // M
    signed!(14, 20), // tau
    signed!(21, 20), // lambda
    unsigned!(21, 0, 1411200, 5), // its time
    signed!(15, 20), // di
    full!(15, 20), // eccentricity
    signed!(16, 15), // omega
    signed!(19, 9), // dT
    signed!(7, 14), // its rate
    full!(23), // reserve
];

pub static TYPE25: [Place; 15] = [
    DAY, // NB
    signed!(16, 14), // xp
    signed!(16, 14), // yp
    signed!(9, 14), // rate of xp
    signed!(9, 14), // rate of yp
    signed!(7, 14), // acceleration of xp
    signed!(7, 14), // acceleration of yp
    signed!(25, 16), // B0
    signed!(10, 16), // B1
    signed!(8, 16), // B2
    full!(9, 7), // c_A
    unsigned!(13, 0, 8000, 4), // c_F
    unsigned!(9, 0, 500), // c_Ap
    signed!(9), // UTC - TAI
    full!(26), // reserve
];
