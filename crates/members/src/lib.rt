// The tests of an ephemeris set: those of its records, and that they belong together.
#![tactic(auto)]

ghost use Rattle.std.specs.Prelude.{◌≡◌, eqb};
ghost use Rattle.format.specs.Sets.{next_time, set_tests, member_tests};

use format::{Refusal, Set};

// Whether an OMB is the next after another.
fn follows(next: u64, time: u64) -> bool
    ensures { result ≡ eqb next (next_time time) }
{
    if time < format::LAST_TIME {
        next == time + 1
    } else {
        next == 0
    }
}

// The tests of a set: 12, the types are 10, 11, 12 in order; 13, the satellite numbers are the same; 14, OMB rises by one each time.
pub fn set_tests(s: &Set) -> Result<(), Refusal>
    ensures { result ≡ set_tests s.now }
{
    if s.first.kind != 10 || s.second.kind != 11 || s.third.kind != 12 {
        return Err(Refusal::OtherTypes);
    }
    if s.second.satellite != s.first.satellite || s.third.satellite != s.first.satellite {
        return Err(Refusal::OtherSatellites);
    }
    if !follows(s.second.time, s.first.time) || !follows(s.third.time, s.second.time) {
        return Err(Refusal::OtherTimes);
    }
    Ok(())
}

// The tests of the records of a set: 7, 8, 11, 10 of each.
pub fn member_tests(s: &Set) -> Result<(), Refusal>
    ensures { result ≡ member_tests s.now }
{
    records::record_tests(&s.first)?;
    records::record_tests(&s.second)?;
    records::record_tests(&s.third)
}
