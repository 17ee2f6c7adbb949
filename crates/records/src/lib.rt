// The tests of a record: those of its fields, of its unused places and raw bits, and of its minus-zero mark.
#![tactic(auto)]

ghost use Rattle.std.specs.Prelude.{◌≡◌, not, ◌&&◌, ◌||◌, pos, get_or};
ghost use Rattle.std.specs.List.{list_any};
ghost use Rattle.format.specs.declared.Refusal.TheVariants.{NotZero};
ghost use Rattle.format.specs.Tests.{when};
ghost use Rattle.format.specs.Records.{is_zero, unused, may_bear, stray, mark_bits, record_tests};
ghost use Rattle.format.specs.Types.{mark_width, places_of};
ghost use Rattle.format.specs.Fields.{absent};
ghost use Rattle.types.specs.Rows.{Describes};

use format::{Mark, Record, Refusal};
use types::rows::Place;

// The bits of the minus-zero mark.
const MARK_BITS: usize = Mark::BITS as usize;

// Whether a number is not 0.
fn any_set(numbers: &[i64]) -> bool
    ensures { result ≡ list_any (λ v. not (is_zero v)) numbers.now }
{
    numbers.iter().any(|v| *v != 0)
}

// Whether a place that the type does not use is not 0.
fn unused(r: &Record) -> bool
    ensures { result ≡ unused (places_of r.now.kind) r.now.numbers }
{
    let used = types::places_of(r.kind).len();
    any_set(&r.numbers[used..])
}

// Whether the number of a record's place may bear the mark: a signed field's zero. Past the last place there is no field.
fn bears(r: &Record, places: &[Place], i: usize) -> bool
    requires { Describes r.now.kind places.now }
    ensures { result ≡ may_bear (get_or (places_of r.now.kind) i absent) (get_or r.now.numbers i (pos 0)) }
{
    match places.get(i) {
        Some(place) => place.signed && r.numbers[i] == 0,
        None => false,
    }
}

// The lowest bit of the minus-zero mark that is not on a signed field's zero.
fn stray(r: &Record) -> Result<(), Refusal>
    ensures { result ≡ stray (places_of r.now.kind) r.now.numbers (mark_bits mark_width r.now.minus) 0 }
{
    let places = types::places_of(r.kind);
    let mut marks = r.minus;
    for i in 0..MARK_BITS {
        if marks % 2 == 1 && !bears(r, places, i) {
            return Err(Refusal::MinusZero(i));
        }
        marks /= 2;
    }
    Ok(())
}

// The test of the minus-zero mark, which passes at once where no bit of it is set.
fn marks_test(r: &Record) -> Result<(), Refusal>
    ensures { result ≡ stray (places_of r.now.kind) r.now.numbers (mark_bits mark_width r.now.minus) 0 }
{
    if r.minus == 0 {
        return Ok(());
    }
    stray(r)
}

// Refused where a place that is not used, or a raw bit past the type's own, is not 0.
#[tactic(auto, unfolding(format::specs::Tests::when))]
fn zero_test(misplaced: bool, clear: bool) -> Result<(), Refusal>
    ensures { result ≡ when (misplaced || not clear) NotZero }
{
    if misplaced || !clear {
        Err(Refusal::NotZero)
    } else {
        Ok(())
    }
}

// The tests of a record: 7, 8, 11, 10.
pub fn record_tests(r: &Record) -> Result<(), Refusal>
    ensures { result ≡ record_tests r.now }
{
    ranges::field_tests(r)?;
    let clear = bits::zero_from(&r.raw, types::raw_count(r.kind));
    zero_test(unused(r), clear)?;
    marks_test(r)
}
