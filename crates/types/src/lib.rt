// What a string of a type is: its length, its check bits, its raw bits and its fields.
#![tactic(auto)]

pub mod rows;

ghost use Rattle.std.specs.Prelude.{◌≡◌, true, ◌↔◌, ◌+◌, ◌*◌, ◌%◌, ◌^◌, ◌<◌, ◌≤◌, length};
ghost use Rattle.bits.specs.Bits.{number, bits, unpack, true_bits, cut, Covers};
ghost use Rattle.cyclic.specs.Poly.{Divides};
ghost use Rattle.cyclic.specs.Register.{check};
ghost use Rattle.format.specs.Strings.{length_of, generator_of, check_bits};
ghost use Rattle.format.specs.Types.{raw_count, places_of};
ghost use Rattle.types.specs.Rows.{Describes, narrow};

use bits::Part;
use cyclic::{Generator, generators};
use rows::Place;

// The bits of a string of a type.
#[tactic(auto, unfolding(format::specs::Strings::length_of))]
pub fn length_of(kind: u8) -> usize
    ensures { result ≡ length_of kind }
{
    match kind {
        1 => 125,
        2 => 375,
        _ => 250,
    }
}

// The generator of a type.
pub fn generator_of(kind: u8) -> Generator<'static>
    ensures generator { bits (result.degree + 1) result.number ≡ generator_of kind }
    ensures degree { result.degree ≡ check_bits kind }
    ensures whole_bytes { result.degree % 8 ≡ 0 }
{
    match kind {
        2 => generators::generator24(),
        _ => generators::generator16(),
    }
}

// The check bits of a type.
pub fn check_count(kind: u8) -> usize
    ensures { result ≡ check_bits kind }
{
    generator_of(kind).degree
}

// The raw bits of a type: all between the service fields and the check bits, where it has no fields.
pub fn raw_count(kind: u8) -> usize
    ensures { result ≡ raw_count kind }
{
    if places_of(kind).is_empty() {
        length_of(kind) - format::SERVICE_END - check_count(kind)
    } else {
        0
    }
}

// The places that a type uses, from field 10 on; a type that is not named has no fields.
#[tactic(auto, unfolding(format::specs::Types::places_of))]
pub fn places_of(kind: u8) -> &'static [Place]
    ensures { Describes kind result.now }
{
    match kind {
        10 => &rows::TYPE10,
        11 => &rows::TYPE11,
        12 => &rows::TYPE12,
        20 => &rows::TYPE20,
        25 => &rows::TYPE25,
        _ => &[],
    }
}

// The places of a type whose range is narrower than their width: no other number that is read can be out of its range.
#[tactic(auto, unfolding(format::specs::Types::places_of))]
pub fn narrow_of(kind: u8) -> &'static [usize]
    ensures { result.now ≡ narrow (places_of kind) 0 }
{
    match kind {
        10 => &[0, 1, 4, 5, 6],
        20 => &[3, 8],
        25 => &[0, 11, 12],
        _ => &[],
    }
}

// Whether the generator of a type divides the `long` true bits of a string of that type from the place `offset` on. The part is just the
// bytes that the string covers. Each arm is compiled with the numbers of its generator.
#[inline(always)]
pub fn divides(part: Part, offset: usize, long: usize, kind: u8) -> bool
    requires { Covers part.bytes.now offset long × (long ≡ length_of kind) }
    ensures { (result ≡ true) ↔ Divides (generator_of kind) (cut offset long (true_bits part.entry.phase part.entry.bytes.now)) }
{
    match kind {
        2 => generators::generator24().divides(part, offset, long),
        _ => generators::generator16().divides(part, offset, long),
    }
}

// The check bits of the `count` bits from the place `offset`, by the generator of a type, as a number.
pub fn check(bytes: &[u8], offset: usize, count: usize, kind: u8) -> u32
    requires { (8 ≤ count) × (offset + count ≤ 8 * length bytes.now) × (offset + count < 2 ^ 32) }
    ensures { result ≡ number (check (generator_of kind) (cut offset count (unpack bytes.now))) }
{
    generator_of(kind).check(bytes, offset, count)
}
