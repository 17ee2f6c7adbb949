// What stands at a place of a recording.
#![tactic(auto)]

ghost use Rattle.std.specs.Prelude.{◌≡◌, ◌≤◌};
ghost use Rattle.recording.specs.Recorded.{bits_of};
ghost use Rattle.format.specs.Standing.{standing};
ghost use Rattle.standing.specs.Frames.{frame_at, as_length};

use format::Refusal;
use recording::Recording;

// The type and the length of a string that stands at a place if its check passes.
#[derive(Clone, Copy)]
pub struct Frame {
    pub kind: u8,
    pub long: usize,
}

// The frame at a place, or why there is none: fewer than 18 bits, no mark, a string that runs past the bit count.
// Mark and type are cut from at most eight bytes, which a string that stands covers.
pub fn frame_at(rec: Recording, place: usize) -> Result<Frame, Refusal>
    requires { place ≤ rec.count }
    ensures { result ≡ frame_at (bits_of rec.entry) place }
{
    if rec.count - place < 18 {
        return Err(Refusal::RunsOut(place));
    }
    let first = place / 8;
    let end = rec.part.bytes.len().min(first + 8);
    let head = rec.part.slice(first, end).field(place % 8, 18);
    if head / 64 != format::MARK {
        return Err(Refusal::NoMark(place));
    }
    let kind = (head % 64) as u8;
    let long = types::length_of(kind);
    if rec.count - place < long {
        return Err(Refusal::RunsOut(place));
    }
    Ok(Frame { kind, long })
}

// The length of the string that stands at a place. The check is taken from only the bytes that the string covers.
pub fn standing(rec: Recording, place: usize) -> Option<usize>
    requires { place ≤ rec.count }
    ensures { result ≡ as_length (standing (bits_of rec.entry) place) }
{
    let Ok(Frame { kind, long }) = frame_at(rec, place) else {
        return None;
    };
    let part = rec.part.covering(place, long);
    types::divides(part, place % 8, long, kind).then_some(long)
}
