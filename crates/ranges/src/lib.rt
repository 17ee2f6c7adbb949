// The tests of a record's fields: their ranges, and the orbit of type 20.
#![tactic(auto)]

ghost use Rattle.std.specs.Prelude.{◌≡◌, cond, not, ◌&&◌, ◌+◌, ◌<◌, eqb, pos, length, get_or};
ghost use Rattle.std.specs.Ordering.{partial_le};
ghost use Rattle.format.specs.declared.Refusal.TheVariants.{OutOfRange, OtherOrbit};
ghost use Rattle.format.specs.Tests.{when};
ghost use Rattle.format.specs.Fields.{absent, in_range};
ghost use Rattle.format.specs.Records.{ranges, first_outside, numbers_of, is_zero, field_tests};
ghost use Rattle.format.specs.Types.{service, places_of, fields_of};
ghost use Rattle.types.specs.Rows.{Describes};
ghost use Rattle.ranges.specs.OfBits.{OfBits};

use format::{Record, Refusal};
use types::rows::Place;

// The place of the orbit in a record of type 20: field 10.
const ORBIT: usize = 0;

// Refused by 7, with the field's number, where a number is out of its range.
pub fn within<T: PartialOrd + Copy>(field: usize, least: T, v: T, most: T) -> Result<(), Refusal>
    ensures { result ≡ when (not (partial_le T.partial_cmp least v && partial_le T.partial_cmp v most)) (OutOfRange field) }
{
    if (least..=most).contains(&v) {
        Ok(())
    } else {
        Err(Refusal::OutOfRange(field))
    }
}

// The test 7 of the field at a place that the record's type uses.
fn number_range(r: &Record, places: &[Place], i: usize) -> Result<(), Refusal>
    requires { Describes r.now.kind places.now × (i < length places.now) }
    ensures { result
        ≡ when (not (in_range (get_or (places_of r.now.kind) i absent) (get_or r.now.numbers i (pos 0)))) (OutOfRange (10 + i)) }
{
    within(10 + i, places[i].least, r.numbers[i], places[i].most)
}

// The first of fields 10 on that is out of range. At a place that the type does not use any number passes.
fn number_ranges(r: &Record) -> Result<(), Refusal>
    ensures { result ≡ ranges (places_of r.now.kind) r.now.numbers 10 }
{
    let places = types::places_of(r.kind);
    for i in 0..places.len() {
        number_range(r, places, i)?;
    }
    Ok(())
}

// The number of a field that is out of its range, or else what was found of later ones.
fn outside<T: PartialOrd + Copy>(field: usize, least: T, v: T, most: T, later: usize) -> usize
    ensures { result ≡ cond (partial_le T.partial_cmp least v && partial_le T.partial_cmp v most) later field }
{
    if least <= v && v <= most {
        later
    } else {
        field
    }
}

// The first of fields 1 to 9 that is out of range, or 0. They are looked at from the last one on, without a branch.
fn service_outside(r: &Record) -> usize
    ensures { result ≡ first_outside service (numbers_of r.now) 1 }
{
    let found = outside(9, 0, r.time, format::LAST_TIME, 0);
    let found = outside(8, 0, r.next, 1, found);
    let found = outside(7, 0, r.correction, 3, found);
    let found = outside(6, 0, r.attitude, 1, found);
    let found = outside(5, 0, r.call, 15, found);
    let found = outside(4, 0, r.validity, 1, found);
    let found = outside(3, 0, r.signal, 1, found);
    let found = outside(2, 1, r.satellite, format::LAST_SATELLITE, found);
    outside(1, 0, r.kind, 63, found)
}

// The first of all fields that is out of range.
fn all_ranges(r: &Record) -> Result<(), Refusal>
    ensures { result ≡ ranges (fields_of r.now.kind) (numbers_of r.now) 1 }
{
    let field = service_outside(r);
    if field != 0 {
        return Err(Refusal::OutOfRange(field));
    }
    number_ranges(r)
}

// Fields 10 on of a record that was decoded: the first that is out of range. Only a range narrower than its field's width is tested.
fn narrow_ranges(r: &Record) -> Result<(), Refusal>
    requires { OfBits r.now }
    ensures { result ≡ ranges (places_of r.now.kind) r.now.numbers 10 }
{
    let places = types::places_of(r.kind);
    for i in types::narrow_of(r.kind) {
        number_range(r, places, *i)?;
    }
    Ok(())
}

// Type 20 is read and written for orbit 00 only.
#[tactic(auto, using(crate::proofs::Laws::zero_seen), unfolding(format::specs::Tests::when))]
fn orbit_test(kind: u8, orbit: i64) -> Result<(), Refusal>
    ensures { result ≡ when (eqb kind 20 && not (is_zero orbit)) OtherOrbit }
{
    if kind == 20 && orbit != 0 {
        Err(Refusal::OtherOrbit)
    } else {
        Ok(())
    }
}

// The tests of a record's fields: 7, then 8.
pub fn field_tests(r: &Record) -> Result<(), Refusal>
    ensures { result ≡ field_tests r.now }
{
    all_ranges(r).and(orbit_test(r.kind, r.numbers[ORBIT]))
}

// The same of a record that was decoded. Of fields 1 to 9 only the satellite number and OMB have a range narrower than their width.
pub fn decoded_tests(r: &Record) -> Result<(), Refusal>
    requires { OfBits r.now }
    ensures { result ≡ field_tests r.now }
{
    within(2, 1, r.satellite, format::LAST_SATELLITE)?;
    within(9, 0, r.time, format::LAST_TIME)?;
    narrow_ranges(r)?;
    orbit_test(r.kind, r.numbers[ORBIT])
}
