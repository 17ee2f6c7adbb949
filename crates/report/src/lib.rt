// The text that the program `list` prints of a recording, put into a lent buffer. What that text is, `specs/` says.
#![tactic(auto)]

ghost use Rattle.std.specs.Prelude.{◌≡◌, List, ℕ, ◌+◌, ◌*◌, ◌≤◌, ◌<◌, length, take};
ghost use Rattle.bits.specs.declared.Phase.TheVariants.{Straight};
ghost use Rattle.bits.specs.Bits.{number, unpack, Covers};
ghost use Rattle.format.specs.Answers.{answer_code};
ghost use Rattle.format.specs.Reading.{reading};
ghost use Rattle.format.specs.Strings.{string_bits};
ghost use Rattle.text.specs.Text.{row, line_most, Wrote};
ghost use Rattle.text.specs.Writing.{HasRoom, Adds};
ghost use Rattle.report.specs.Report.{service_numbers, line, lines, listed, report};
ghost use Rattle.report.specs.Lines.{Within, Inside};
ghost use Rattle.report.specs.Sizes.{bytes_most, report_most};

use bits::{Part, Phase};
use format::{Limits, SERVICE_END};
use text::Text;

// The most starts that a recording within the limit has, and one more; each string has at least 125 bits.
pub const STARTS: usize = Limits::BITS / 125 + 1;

// The bytes of the longest recording that is not refused, and one more.
pub const BYTES: usize = Limits::BITS / 8 + 1;

// The first line of a report.
const HEADER: &[u8] = b"place,type,number,kp,a,omb,result\n";

// The most bytes of a report.
pub const REPORT: usize = HEADER.len() + text::LINE * STARTS;

// The number that reading answers at a place.
fn result_at(rec: &[u8], place: usize) -> u32
    requires { Within rec.now }
    ensures { result ≡ (answer_code (reading Straight rec.now (8 * length rec.now) place)).0 }
{
    answers::answer_number(&reading::read(rec, 8 * rec.len(), Phase::Straight, place))
}

// The number that the bits `first` to `last` of the string at the place `offset` make, from the bytes that its first 50 bits cover. Bits in
// a string count from 1.
fn field(part: &[u8], offset: usize, first: usize, last: usize) -> u32
    requires { Covers part.now offset 50 × (0 < first) × (first ≤ last) × (last ≤ 50) × (last < first + 32) }
    ensures { result ≡ number (string_bits (unpack part.now) offset first last) }
{
    let part = Part {
        bytes: part,
        phase: Phase::Straight,
    };
    part.field(offset + first - 1, last + 1 - first) as u32
}

// Type, j, KP, A and OMB of the string at the place `offset`, from the bytes that its first 50 bits cover.
fn service_numbers(part: &[u8], offset: usize) -> [u32; 5]
    requires { Covers part.now offset 50 }
    ensures { result ≡ service_numbers (unpack part.now) offset }
{
    let kind = field(part, offset, 13, 18);
    let satellite = field(part, offset, 19, 24);
    let correction = field(part, offset, 32, 33);
    let next = field(part, offset, 34, 34);
    let time = field(part, offset, 35, 50);
    [kind, satellite, correction, next, time]
}

// The seven numbers of the line of the string at a place: the place, type, j, KP, A and OMB, and reading's number.
fn line_numbers(rec: &[u8], place: usize) -> [u32; text::ROW]
    requires { Within rec.now × (place + 50 ≤ 8 * length rec.now) }
    ensures { row result ≡ line rec.now place }
{
    let whole = Part {
        bytes: rec,
        phase: Phase::Straight,
    };
    let part = whole.covering(place, SERVICE_END).bytes;
    let [kind, satellite, correction, next, time] = service_numbers(part, place % 8);
    let result = result_at(rec, place);
    [
        place as u32,
        kind,
        satellite,
        correction,
        next,
        time,
        result,
    ]
}

// Writes the line of a start.
fn put_line(rec: &[u8], start: usize, text: &mut Text)
    requires { Within rec.now × (start + 50 ≤ 8 * length rec.now) × HasRoom line_most text.old }
    ensures { Adds (line rec.now start) text.old text.new }
{
    text.row(&line_numbers(rec, start));
}

// Writes a line for each start.
fn put_lines(rec: &[u8], starts: &[u32], text: &mut Text)
    requires { Within rec.now × Inside rec.now starts.now (length starts.now) × HasRoom (line_most * length starts.now) text.old }
    ensures { Adds (lines rec.now starts.now) text.old text.new }
{
    for start in starts {
        put_line(rec, *start as usize, text);
    }
}

// Writes the header and the lines of a recording that is not too long. The list has an entry for each string that such a recording can
// hold.
fn put_listing(rec: &[u8], text: &mut Text)
    requires { Within rec.now × HasRoom report_most text.old }
    ensures { Adds (listed rec.now) text.old text.new }
{
    let mut found = [0u32; STARTS];
    let Ok(n) = listing::list(rec, 8 * rec.len(), Phase::Straight, &mut found) else {
        return;
    };
    text.bytes(HEADER);
    put_lines(rec, &found[..n], text);
}

// Writes the refusal of a recording that is too long, or the listing of another.
fn put_report(rec: &[u8], text: &mut Text)
    requires { HasRoom report_most text.old }
    ensures { Adds (report rec.now) text.old text.new }
{
    if rec.len() >= BYTES {
        text.bytes(b"refused,1\n");
    } else {
        put_listing(rec, text);
    }
}

// Puts all that `list` prints for these bytes at the front of the buffer, and answers how many bytes that is. It is also what `list` prints
// for every input that begins with these bytes, where they are as many as it reads.
pub fn report(rec: &[u8], out: &mut [u8]) -> usize
    requires { report_most ≤ length out.old }
    ensures wrote { Wrote (report rec.now) 0 out.old out.new result }
    ensures enough { (input : List ℕ) → rec.now ≡ take bytes_most input
        → Wrote (report input) 0 out.old out.new result }
{
    let mut text = Text::new(out);
    put_report(rec, &mut text);
    text.len
}
