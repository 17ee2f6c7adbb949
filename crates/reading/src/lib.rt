// Reading the string at a place into a record.
#![tactic(auto)]

mod whole;

ghost use Rattle.std.specs.Prelude.{◌≡◌};
ghost use Rattle.format.specs.Reading.{reading};
ghost use Rattle.format.specs.Records.{blank};
ghost use Rattle.format.specs.Tests.{answer_of, given_or};
ghost use Rattle.format.specs.Writing.{ReadPromise};
ghost use Rattle.reading.specs.Reads.{Reads};

use bits::Phase;
use format::{Record, Refusal};
use recording::Recording;
use whole::Whole;

// The tests 1, 2, 3, 5, 4, 5, 6, 7, 8; where they pass, a blank record is made that of the string at the place.
fn fill(rec: &[u8], count: usize, phase: Phase, place: usize, r: &mut Record) -> Result<(), Refusal>
    requires { r.old ≡ blank }
    ensures { Reads (reading phase rec.now count place) result r.new }
{
    let recording = Recording::new(rec, count, phase)?;
    answers::place_test(recording.count, place)?;
    let frame = standing::frame_at(recording, place)?;
    let whole = Whole {
        part: recording.part.covering(place, frame.long),
        offset: place % 8,
        frame,
    };
    whole.checked(place, r)
}

// Reads the string at a place into a lent record, which a refusal leaves unchanged: 1, 2, 3, 5, 4, 5, 6, 7, 8.
#[inline(always)]
pub fn read_into(
    rec: &[u8],
    count: usize,
    phase: Phase,
    place: usize,
    r: &mut Record,
) -> Result<(), Refusal>
    ensures answered { result ≡ answer_of (reading phase rec.now count place) }
    ensures content { r.new ≡ given_or r.old (reading phase rec.now count place) }
    ensures promise { ReadPromise phase rec.now count place (reading phase rec.now count place) }
{
    let before = *r;
    *r = Record::default();
    let answer = fill(rec, count, phase, place, r);
    if answer.is_err() {
        *r = before;
    }
    answer
}

// Reads the string at a place.
pub fn read(rec: &[u8], count: usize, phase: Phase, place: usize) -> Result<Record, Refusal>
    ensures { ReadPromise phase rec.now count place result }
{
    let mut content = Record::default();
    fill(rec, count, phase, place, &mut content)?;
    Ok(content)
}
