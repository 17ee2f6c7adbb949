// A field's bits as a number, and bits that are held until they fill a word.
ghost use Rattle.std.specs.Prelude.{◌≡◌, true, ◌&&◌, ◌+◌, ◌*◌, ◌^◌, ◌<◌, ◌≤◌, length};
ghost use Rattle.bits.specs.Bits.{bits, unpack, put};
ghost use Rattle.format.specs.Fields.{widest};
ghost use Rattle.bits.specs.Signed.{is_minus_zero};
ghost use Rattle.fields.specs.Decoded.{number_of};

use signs::Signed;

// The bits of a field as a number, with the width of the field and whether it is signed.
#[derive(Clone, Copy)]
pub struct FieldBits {
    pub signed: bool,
    pub width: usize,
    pub word: u64,
    pub ghost narrow: { width ≤ widest },
    pub ghost sized: { signed ≡ true → 2 ≤ width },
    pub ghost small: { word < 2 ^ width },
}

impl FieldBits {
    // The same of a signed field.
    fn sign_and_magnitude(self) -> Signed
        requires { self.signed ≡ true }
        ensures { (result.field ≡ self.word) × (result.width ≡ self.width) }
    {
        Signed {
            field: self.word,
            width: self.width,
        }
    }

    // The number that the bits stand for.
    pub fn number(self) -> i64
        ensures { result ≡ number_of self.signed self.width self.word }
    {
        if self.signed {
            self.sign_and_magnitude().number()
        } else {
            self.word as i64
        }
    }

    // Whether they are minus zero, of a signed field.
    pub fn is_minus_zero(self) -> bool
        ensures { result ≡ (self.signed && is_minus_zero (bits self.width self.word)) }
    {
        self.signed && self.sign_and_magnitude().is_minus_zero()
    }
}

// Bits that are to be put from the place `at` on, as a number; they are held until more do not fit in a word.
#[derive(Clone, Copy)]
pub struct Held {
    pub at: usize,
    pub word: u64,
    pub count: usize,
    pub ghost few: { count ≤ 64 },
    pub ghost small: { word < 2 ^ count },
}

impl Held {
    ghost use Rattle.fields.specs.Coded.{after_held};

    // Nothing is held; the first bits go to the place `at`.
    pub fn none(at: usize) -> Held
        ensures { (result.at ≡ at) × (result.count ≡ 0) }
    {
        Held {
            at,
            word: 0,
            count: 0,
        }
    }

    // Holds the bits of a field after those that are held; these are put first where there is no room beside them.
    pub fn hold(&mut self, part: &mut [u8], field: FieldBits)
        requires room { (self.old.at + self.old.count + field.width ≤ 8 * length part.old)
            × (self.old.at + self.old.count + field.width < 2 ^ 64) }
        ensures reach { self.new.at + self.new.count ≡ self.old.at + self.old.count + field.width }
        ensures bits_put { after_held self.new (unpack part.new)
            ≡ put (self.old.at + self.old.count) (bits field.width field.word) (after_held self.old (unpack part.old)) }
    {
        if self.count + field.width > 64 {
            puts::put_field(part, self.at, self.count, self.word);
            *self = Held {
                at: self.at + self.count,
                word: field.word,
                count: field.width,
            };
        } else {
            *self = Held {
                at: self.at,
                word: (self.word << field.width) | field.word,
                count: self.count + field.width,
            };
        }
    }

    // Puts what is held.
    pub fn put(self, part: &mut [u8])
        requires { (self.at + self.count ≤ 8 * length part.old) × (self.at + self.count < 2 ^ 64) }
        ensures { unpack part.new ≡ after_held self (unpack part.old) }
    {
        puts::put_field(part, self.at, self.count, self.word);
    }
}
