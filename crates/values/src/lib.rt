// Values in physical units: a field as an f64, the accuracy factor in centimetres, the day count.
#![tactic(auto)]

ghost use Rattle.std.specs.Prelude.{◌≡◌, SomeIff, ◌<◌, ◌^◌, pos, nat_abs};
ghost use Rattle.std.specs.Float.{binary64};
ghost use Rattle.std.specs.Float.Ieee.{of_bits};
ghost use Rattle.format.specs.Values.{power_of, scaled_bits, IsScaled, ScalePromise, AccuracyPromise, DayPromise};

use format::{Record, Refusal};

// Centimetres for the accuracy factors from -15 to 14.
const CENTIMETRES: [usize; 30] = [
    1, 2, 3, 4, 6, 8, 10, 15, 20, 30, 40, 60, 70, 80, 90, 100, 200, 250, 400, 500, 700, 1000, 1200,
    1400, 1600, 3200, 6400, 12800, 25600, 51200,
];

// The k of a field's power 2 ^ -k by its number, if the number is that of a field with a power.
fn power_of(kind: u8, field: usize) -> Option<u8>
    ensures { SomeIff result (0 < power_of kind field) (power_of kind field) }
{
    let i = field.checked_sub(10)?;
    let place = types::places_of(kind).get(i)?;
    if place.power == 0 {
        None
    } else {
        Some(place.power)
    }
}

// 2 ^ -k, by its bits: the exponent alone.
fn power(k: u8) -> f64
    ensures { IsScaled (pos 1) k result }
{
    f64::from_bits((1023 - u64::from(k)) << 52)
}

// A count times 2 ^ -k: no digit of either is lost.
fn scale(count: i64, k: u8) -> f64
    requires { nat_abs count < 2 ^ 53 }
    ensures value { result ≡ of_bits binary64 (scaled_bits count k) }
    ensures scaled { IsScaled count k result }
{
    (count as f64) * power(k)
}

// The value of a record's field by its number.
pub fn scaled(r: &Record, field: usize) -> Result<f64, Refusal>
    ensures { ScalePromise r.now field result }
{
    records::record_tests(r)?;
    let Some(k) = power_of(r.kind, field) else {
        return Err(Refusal::OutOfRange(field));
    };
    Ok(scale(r.numbers[field - 10], k))
}

// The centimetres of an accuracy factor; 0 for 15, which is undefined.
pub fn accuracy(factor: i64) -> Result<usize, Refusal>
    ensures { AccuracyPromise factor result }
{
    ranges::within(19, -15, factor, 15)?;
    let i = (factor + 15) as usize;
    if i == 30 {
        return Ok(0);
    }
    Ok(CENTIMETRES[i])
}

// The days from 1 January 1996 to day `nt` of the four-year interval `n4`.
pub fn day_count(n4: i64, nt: i64) -> Result<usize, Refusal>
    ensures { DayPromise n4 nt result }
{
    ranges::within(10, 1, n4, types::rows::INTERVALS)?;
    ranges::within(11, 1, nt, types::rows::INTERVAL_DAYS)?;
    let interval = n4 as usize;
    let day = nt as usize;
    Ok(types::rows::INTERVAL_DAYS as usize * (interval - 1) + day - 1)
}
