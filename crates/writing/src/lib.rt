// Writing a record as a string.
#![tactic(auto)]

ghost use Rattle.std.specs.Prelude.{Ok, ◌≡◌, ◌+◌, ◌*◌, ◌^◌, ◌<◌, ◌≤◌, length};
ghost use Rattle.bits.specs.Bits.{number, unpack, cut, put};
ghost use Rattle.format.specs.declared.Refusal.TheVariants.{RunsOut};
ghost use Rattle.format.specs.Records.{field_tests, record_tests};
ghost use Rattle.format.specs.Strings.{length_of};
ghost use Rattle.format.specs.Tests.{bit_limit, when, above};
ghost use Rattle.format.specs.Types.{most_raw};
ghost use Rattle.format.specs.Writing.{service_bits, string, with_bits, WritePromise};

use bits::{Part, Phase};
use format::{RAW_BYTES, Record, Refusal, SERVICE_END};

// A lent record that passes its tests.
#[derive(Clone, Copy)]
pub struct Writable<'a> {
    pub content: &'a Record,
    pub ghost passes: { record_tests content.now ≡ Ok tt },
}

// The service bits of a record, bits 13 to 50, as a number.
fn service(r: &Record) -> u64
    requires { field_tests r.now ≡ Ok tt }
    ensures { result ≡ number (service_bits r.now) }
{
    let satellite = u64::from(r.kind) * 64 + u64::from(r.satellite);
    let validity = (satellite * 2 + u64::from(r.signal)) * 2 + u64::from(r.validity);
    let attitude = (validity * 16 + u64::from(r.call)) * 2 + u64::from(r.attitude);
    let next = (attitude * 4 + u64::from(r.correction)) * 2 + u64::from(r.next);
    next * 65536 + r.time
}

// Puts the first `n` raw bits from the place `to` on. By value, since lending them makes the compiler copy the whole record.
fn put_raw(part: &mut [u8], to: usize, raw: [u8; RAW_BYTES], n: usize)
    requires { (n ≤ most_raw) × (to + n ≤ 8 * length part.old) × (to + n < 2 ^ 64) }
    ensures { unpack part.new ≡ put to (cut 0 n (unpack raw)) (unpack part.old) }
{
    let raw = Part {
        bytes: &raw,
        phase: Phase::Straight,
    };
    puts::copy_bits(part, to, raw, 0, n);
}

// Puts the string of a record at the place `offset`. It has as many bits as its type says.
fn put_string(part: &mut [u8], offset: usize, r: &Record)
    requires passes { record_tests r.now ≡ Ok tt }
    requires ends { (offset < 8) × (offset + length_of r.now.kind ≤ 8 * length part.old) }
    ensures long { length (string r.now) ≡ length_of r.now.kind }
    ensures bits_put { unpack part.new ≡ put offset (string r.now) (unpack part.old) }
{
    let kind = r.kind;
    let degree = types::check_count(kind);
    let count = types::length_of(kind) - degree;
    let n = types::raw_count(kind);
    puts::put_field(part, offset, SERVICE_END, (format::MARK << 38) + service(r));
    fields::put_numbers(part, offset + SERVICE_END, kind, &r.numbers, r.minus);
    put_raw(part, offset + count - n, r.raw, n);
    let c = types::check(part, offset, count, kind);
    puts::put_field(part, offset + count, degree, u64::from(c));
}

// Puts the string of a record at a place.
pub fn put_at(rec: &mut [u8], place: usize, r: Writable)
    requires { (place + length_of r.content.now.kind ≤ bit_limit) × (place + length_of r.content.now.kind ≤ 8 * length rec.old) }
    ensures { rec.new ≡ with_bits place (string r.entry.content.now) rec.old }
{
    let long = types::length_of(r.content.kind);
    let first = place / 8;
    let last = (place + long).div_ceil(8);
    put_string(&mut rec[first..last], place % 8, r.content);
}

// The test 5 of so many bits at a place.
pub fn room_test(count: usize, place: usize, long: usize) -> Result<(), Refusal>
    requires { (count ≤ bit_limit) × (place ≤ count) }
    ensures { result ≡ when (above (place + long) count) (RunsOut place) }
{
    if long > count - place {
        return Err(Refusal::RunsOut(place));
    }
    Ok(())
}

// Writes a record's string at a place, and answers the place after it. A refusal leaves every byte unchanged.
pub fn write(rec: &mut [u8], count: usize, place: usize, r: Record) -> Result<usize, Refusal>
    ensures { WritePromise rec.old count place r result rec.new }
{
    answers::place_tests(rec.len(), count, place)?;
    records::record_tests(&r)?;
    let long = types::length_of(r.kind);
    room_test(count, place, long)?;
    put_at(rec, place, Writable { content: &r });
    Ok(place + long)
}
