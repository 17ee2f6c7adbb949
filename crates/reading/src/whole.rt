// A string by just the bytes that it covers.
ghost use Rattle.std.specs.Prelude.{◌≡◌};
ghost use Rattle.bits.specs.Bits.{true_bits, Covers};
ghost use Rattle.format.specs.Reading.{record_at};
ghost use Rattle.format.specs.Records.{blank};
ghost use Rattle.format.specs.Strings.{type_at, length_of};
ghost use Rattle.reading.specs.Checked.{checked};
ghost use Rattle.reading.specs.Reads.{Reads};

use bits::Part;
use format::{Record, Refusal, SERVICE_END};
use standing::Frame;

// The bytes that a string covers, the bit of the first of them at which it begins, its type and its length.
#[derive(Clone, Copy)]
pub struct Whole<'a> {
    pub part: Part<'a>,
    pub offset: usize,
    pub frame: Frame,
    pub ghost covers: { Covers part.bytes.now offset frame.long },
    pub ghost kind: { frame.kind ≡ type_at (true_bits part.phase part.bytes.now) offset },
    pub ghost long: { frame.long ≡ length_of frame.kind },
}

impl<'a> Whole<'a> {
    // Makes a blank record that of the string. A type that has raw bits has no fields.
    fn decode(self, r: &mut Record)
        requires { r.old ≡ blank }
        ensures { r.new ≡ record_at (true_bits self.entry.part.phase self.entry.part.bytes.now) self.entry.offset }
    {
        let part = self.part;
        let kind = self.frame.kind;
        let service = part.field(self.offset + 18, 32);
        let information = self.offset + SERVICE_END;
        r.kind = kind;
        r.satellite = ((service >> 26) % 64) as u8;
        r.signal = ((service >> 25) % 2) as u8;
        r.validity = ((service >> 24) % 2) as u8;
        r.call = ((service >> 20) % 16) as u8;
        r.attitude = ((service >> 19) % 2) as u8;
        r.correction = ((service >> 17) % 4) as u8;
        r.next = ((service >> 16) % 2) as u8;
        r.time = service % 65536;
        let raw = types::raw_count(kind);
        if raw == 0 {
            fields::numbers_at(part, information, kind, &mut r.numbers, &mut r.minus);
        } else {
            puts::pack_bits(&mut r.raw, part, information, raw);
        }
    }

    // The tests 6, 7, 8; where they pass, a blank record is made that of the string. A refusal by 6 names the place.
    pub fn checked(self, place: usize, r: &mut Record) -> Result<(), Refusal>
        requires { r.old ≡ blank }
        ensures { Reads (checked (true_bits self.entry.part.phase self.entry.part.bytes.now) self.entry.offset place) result r.new }
    {
        if !types::divides(self.part, self.offset, self.frame.long, self.frame.kind) {
            return Err(Refusal::CheckFails(place));
        }
        self.decode(r);
        ranges::decoded_tests(r)
    }
}
