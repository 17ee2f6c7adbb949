// The listing of a recording: the starts of the strings that stand in it.
#![tactic(auto)]

ghost use Rattle.std.specs.Prelude.{◌≡◌, cond, ltb, length, set, take};
ghost use Rattle.bits.specs.Bits.{put};
ghost use Rattle.format.specs.Demand3.{ListPromise};
ghost use Rattle.format.specs.Listing.{starts};
ghost use Rattle.recording.specs.Recorded.{bits_of};

use bits::Phase;
use format::Refusal;
use recording::Recording;

// Puts a start at an index of the list, if it has that entry.
fn note(list: &mut [u32], index: usize, start: u32)
    ensures { list.new ≡ cond (ltb index (length list.old)) (set list.old index start) list.old }
{
    if index < list.len() {
        list[index] = start;
    }
}

// How many starts the rule finds; the first of them, as many as the list has entries, go to its front.
fn scan(rec: Recording, list: &mut [u32]) -> usize
    ensures found { result ≡ length (starts (bits_of rec.entry)) }
    ensures left { list.new ≡ put 0 (take (length list.old) (starts (bits_of rec.entry))) list.old }
{
    let mut found: usize = 0;
    let mut p: usize = 0;
    while p < rec.count {
        if let Some(long) = standing::standing(rec, p) {
            note(list, found, p as u32);
            found += 1;
            p += long;
        } else {
            p = search::next_mark(rec.part, rec.count, p + 1);
        }
    }
    found
}

// Lists the starts of the strings in the first `count` true bits of `rec`. They are counted first only where the list could be too short.
pub fn list(rec: &[u8], count: usize, phase: Phase, list: &mut [u32]) -> Result<usize, Refusal>
    ensures { ListPromise phase rec.now count list.old result list.new }
{
    let recording = Recording::new(rec, count, phase)?;
    if list.len() < count / 125 {
        let needed = scan(recording, &mut []);
        if list.len() < needed {
            return Err(Refusal::ListShort(needed));
        }
    }
    Ok(scan(recording, list))
}
