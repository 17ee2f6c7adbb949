// Answers: their numbers and values in the paper, and the tests of a bit count and a place.
#![tactic(auto)]

ghost use Rattle.std.specs.Prelude.{◌≡◌, ◌^◌, ◌<◌};
ghost use Rattle.format.specs.Answers.{refusal_code, answer_code, outcome_code, taken_code};
ghost use Rattle.format.specs.declared.Refusal.TheVariants.{BeyondCount};
ghost use Rattle.format.specs.Tests.{when, above, count_tests, place_tests};

use format::{Limits, Refusal};

// An answer: 0 and the value asked for, or the number of a refusal and its value.
#[repr(C)]
#[derive(Clone, Copy)]
pub struct Code {
    pub number: u64,
    pub value: u64,
}

// Number and value of a refusal.
pub fn refusal_code(refusal: Refusal) -> Code
    ensures { (result.number ≡ (refusal_code refusal).0) × (result.value ≡ (refusal_code refusal).1) × (result.number < 2 ^ 32) }
{
    match refusal {
        Refusal::TooLong => coded(1, 0),
        Refusal::BeyondBytes => coded(2, 0),
        Refusal::BeyondCount(place) => coded(3, place),
        Refusal::NoMark(place) => coded(4, place),
        Refusal::RunsOut(place) => coded(5, place),
        Refusal::CheckFails(place) => coded(6, place),
        Refusal::OutOfRange(field) => coded(7, field),
        Refusal::OtherOrbit => coded(8, 10),
        Refusal::ListShort(needed) => coded(9, needed),
        Refusal::MinusZero(bit) => coded(10, bit),
        Refusal::NotZero => coded(11, 0),
        Refusal::OtherTypes => coded(12, 0),
        Refusal::OtherSatellites => coded(13, 0),
        Refusal::OtherTimes => coded(14, 0),
        Refusal::NotAlmanac => coded(15, 0),
    }
}

// A number and a value.
fn coded(number: u64, value: usize) -> Code
    ensures { (result.number ≡ number) × (result.value ≡ value) }
{
    Code {
        number,
        value: value as u64,
    }
}

// Number and value of what a test or a reading answers, whatever it gives.
pub fn answer_code<T>(answer: &Result<T, Refusal>) -> Code
    ensures { (result.number ≡ (answer_code answer.now).0) × (result.value ≡ (answer_code answer.now).1) × (result.number < 2 ^ 32) }
{
    match answer {
        Ok(_) => coded(0, 0),
        Err(refusal) => refusal_code(*refusal),
    }
}

// Number and value of what a function answers that gives a number.
pub fn outcome_code(answer: Result<usize, Refusal>) -> Code
    ensures { (result.number ≡ (outcome_code answer).0) × (result.value ≡ (outcome_code answer).1) }
{
    match answer {
        Ok(value) => coded(0, value),
        Err(refusal) => refusal_code(refusal),
    }
}

// Number and value of what offering a record to a book answers: whether the record is taken.
pub fn taken_code(answer: Result<bool, Refusal>) -> Code
    ensures { (result.number ≡ (taken_code answer).0) × (result.value ≡ (taken_code answer).1) }
{
    match answer {
        Ok(taken) => coded(0, usize::from(taken)),
        Err(refusal) => refusal_code(refusal),
    }
}

// The number of what a test or a reading answers.
pub fn answer_number<T>(answer: &Result<T, Refusal>) -> u32
    ensures { result ≡ (answer_code answer.now).0 }
{
    answer_code(answer).number as u32
}

// The tests 1, 2 of a bit count, of so many bytes.
pub fn count_tests(bytes: usize, count: usize) -> Result<(), Refusal>
    ensures { result ≡ count_tests bytes count }
{
    if count > Limits::BITS {
        return Err(Refusal::TooLong);
    }
    if count.div_ceil(8) > bytes {
        return Err(Refusal::BeyondBytes);
    }
    Ok(())
}

// The test 3 of a bit count and a place.
#[tactic(auto, unfolding(format::specs::Tests::when))]
pub fn place_test(count: usize, place: usize) -> Result<(), Refusal>
    ensures { result ≡ when (above place count) (BeyondCount place) }
{
    if place > count {
        return Err(Refusal::BeyondCount(place));
    }
    Ok(())
}

// The tests 1, 2, 3 of a bit count and a place, of so many bytes.
pub fn place_tests(bytes: usize, count: usize, place: usize) -> Result<(), Refusal>
    ensures { result ≡ place_tests bytes count place }
{
    count_tests(bytes, count)?;
    place_test(count, place)
}
