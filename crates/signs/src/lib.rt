// Sign and magnitude: a signed field as a number, and a number as a signed field. The definitions are those of `bits`.
#![tactic(auto)]

ghost use Rattle.std.specs.Prelude.{◌≡◌, ◌-◌, ◌^◌, ◌<◌, ◌≤◌, nat_abs};
ghost use Rattle.bits.specs.Bits.{number, bits};
ghost use Rattle.bits.specs.Signed.{signed_of, is_minus_zero, sign_magnitude};

// A signed field: the number that its bits make, and how many they are.
#[derive(Clone, Copy)]
pub struct Signed {
    pub field: u64,
    pub width: usize,
    pub ghost fits: { (2 ≤ width) × (width ≤ 64) × (field < 2 ^ width) },
}

impl Signed {
    // A number as a signed field; `minus` marks a zero as minus zero.
    pub fn new(value: i64, minus: bool, width: usize) -> Signed
        requires { (2 ≤ width) × (width ≤ 64) × (nat_abs value < 2 ^ (width - 1)) }
        ensures { (result.field ≡ number (sign_magnitude width value minus)) × (result.width ≡ width) }
    {
        let sign = u64::from((value < 0) | minus);
        Signed {
            field: (sign << (width - 1)) | value.unsigned_abs(),
            width,
        }
    }

    // The number that the field stands for: its magnitude, negated where its first bit is 1.
    pub fn number(self) -> i64
        ensures { result ≡ signed_of (bits self.width self.field) }
    {
        let minus_zero = 1 << (self.width - 1);
        if self.field < minus_zero {
            return self.field as i64;
        }
        -((self.field - minus_zero) as i64)
    }

    // Whether the field is minus zero.
    pub fn is_minus_zero(self) -> bool
        ensures { result ≡ is_minus_zero (bits self.width self.field) }
    {
        self.field == 1 << (self.width - 1)
    }
}
