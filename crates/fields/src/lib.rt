// A type's information fields: their bits fetched as numbers, and numbers put as their bits.
#![tactic(auto)]

mod words;

ghost use Rattle.std.specs.Prelude.{◌≡◌, true, false, ◌+◌, ◌*◌, ◌-◌, ◌^◌, ◌<◌, ◌≤◌, pos, nat_abs, length, drop, replicate};
ghost use Rattle.bits.specs.Bits.{number, unpack, true_bits, put};
ghost use Rattle.format.specs.Fields.{widest, total, codes};
ghost use Rattle.format.specs.Records.{mark_bits};
ghost use Rattle.format.specs.Types.{places, mark_width, places_of};
ghost use Rattle.fields.specs.Coded.{code_of, Tested};
ghost use Rattle.fields.specs.Decoded.{Decoded};

use bits::Part;
use format::{Mark, PLACES};
use signs::Signed;
use types::rows::Place;
use words::{FieldBits, Held};

// Sets blank places and a blank mark to the numbers of a type's information fields, whose bits begin at the place `from` of the part, and
// their minus-zero mark. Past the last field all numbers stay 0.
pub fn numbers_at(part: Part, from: usize, kind: u8, numbers: &mut [i64; PLACES], minus: &mut Mark)
    requires room { (from + total (places_of kind) ≤ 8 * length part.bytes.now) × (from + total (places_of kind) < 2 ^ 64) }
    requires blank { (numbers.old ≡ replicate places (pos 0)) × (minus.old ≡ 0) }
    ensures { Decoded kind (drop from (true_bits part.entry.phase part.entry.bytes.now)) numbers.new minus.new }
{
    let mut at = from;
    for (i, place) in types::places_of(kind).iter().enumerate() {
        let word = part.nonempty_field(at, place.width);
        let field = FieldBits {
            signed: place.signed,
            width: place.width,
            word,
        };
        numbers[i] = field.number();
        if field.is_minus_zero() {
            *minus += 1 << i;
        }
        at += place.width;
    }
}

// The bits of a number in the field of a place.
fn code(place: &Place, v: i64, minus: bool) -> FieldBits
    requires { (place.now.width ≤ widest)
        × (place.now.signed ≡ true → (2 ≤ place.now.width) × (nat_abs v < 2 ^ (place.now.width - 1)))
        × (place.now.signed ≡ false → (v ≡ pos (nat_abs v)) × (nat_abs v < 2 ^ place.now.width)) }
    ensures as_place { (result.signed ≡ place.now.signed) × (result.width ≡ place.now.width) }
    ensures coded { result.word ≡ number (code_of place.now.signed place.now.width v minus) }
{
    if place.signed {
        let word = Signed::new(v, minus, place.width).field;
        return FieldBits {
            signed: true,
            width: place.width,
            word,
        };
    }
    FieldBits {
        signed: false,
        width: place.width,
        word: v as u64,
    }
}

// Puts the bits of a type's information fields from the place `from` of the part on.
pub fn put_numbers(part: &mut [u8], from: usize, kind: u8, numbers: &[i64; PLACES], minus: Mark)
    requires ends { (from + total (places_of kind) ≤ 8 * length part.old) × (from + total (places_of kind) < 2 ^ 64) }
    requires tested { Tested (places_of kind) numbers.now minus }
    ensures { unpack part.new ≡ put from (codes (places_of kind) numbers.now (mark_bits mark_width minus)) (unpack part.old) }
{
    let mut marks = minus;
    let mut held = Held::none(from);
    for (i, place) in types::places_of(kind).iter().enumerate() {
        held.hold(part, code(place, numbers[i], marks % 2 == 1));
        marks /= 2;
    }
    held.put(part);
}
