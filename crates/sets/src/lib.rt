// Ephemeris sets: three strings of types 10, 11 and 12, each where the one before it ends, read and written as one.
#![tactic(auto)]

ghost use Rattle.std.specs.Prelude.{◌≡◌};
ghost use Rattle.format.specs.Sets.{set_reading, SetReadPromise, SetWritePromise};
ghost use Rattle.format.specs.Tests.{answer_of, given_or};
ghost use Rattle.reading.specs.Reads.{Reads};

use bits::Phase;
use format::{Refusal, Set};
use writing::Writable;

// The bits of one string of a set.
const STRING_BITS: usize = 250;

// The bits of a set.
const SET_BITS: usize = 3 * STRING_BITS;

// Reads the three strings into a lent set, and tests it.
fn fill(rec: &[u8], count: usize, phase: Phase, place: usize, s: &mut Set) -> Result<(), Refusal>
    ensures { Reads (set_reading phase rec.now count place) result s.new }
{
    reading::read_into(rec, count, phase, place, &mut s.first)?;
    let second_place = place + types::length_of(s.first.kind);
    reading::read_into(rec, count, phase, second_place, &mut s.second)?;
    let third_place = second_place + types::length_of(s.second.kind);
    reading::read_into(rec, count, phase, third_place, &mut s.third)?;
    members::set_tests(s)
}

// Reads the set at a place into a lent set, which a refusal leaves unchanged.
#[inline(always)]
pub fn read_into(
    rec: &[u8],
    count: usize,
    phase: Phase,
    place: usize,
    s: &mut Set,
) -> Result<(), Refusal>
    ensures answered { result ≡ answer_of (set_reading phase rec.now count place) }
    ensures content { s.new ≡ given_or s.old (set_reading phase rec.now count place) }
    ensures promise { SetReadPromise phase rec.now count place (set_reading phase rec.now count place) }
{
    let before = *s;
    let answer = fill(rec, count, phase, place, s);
    if answer.is_err() {
        *s = before;
    }
    answer
}

// Reads the set at a place.
pub fn read(rec: &[u8], count: usize, phase: Phase, place: usize) -> Result<Set, Refusal>
    ensures { SetReadPromise phase rec.now count place result }
{
    let mut content = Set::default();
    fill(rec, count, phase, place, &mut content)?;
    Ok(content)
}

// Writes a set at a place, and answers the place after it. A refusal leaves every byte unchanged.
pub fn write(rec: &mut [u8], count: usize, place: usize, s: Set) -> Result<usize, Refusal>
    ensures { SetWritePromise rec.old count place s result rec.new }
{
    answers::place_tests(rec.len(), count, place)?;
    members::member_tests(&s)?;
    members::set_tests(&s)?;
    writing::room_test(count, place, SET_BITS)?;
    let second = place + STRING_BITS;
    let third = second + STRING_BITS;
    writing::put_at(rec, place, Writable { content: &s.first });
    writing::put_at(rec, second, Writable { content: &s.second });
    writing::put_at(rec, third, Writable { content: &s.third });
    Ok(place + SET_BITS)
}
