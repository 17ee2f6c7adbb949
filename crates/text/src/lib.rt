// Decimal numbers and comma-separated rows as bytes, written one after another into lent memory. What a numeral or a row is, `specs/` says.
#![tactic(auto)]

ghost use Rattle.std.specs.Prelude.{[], ◌∷◌, ◌++◌, ◌≡◌, ◌*◌, length, take};
ghost use Rattle.text.specs.Text.{numeral, row, number_most};
ghost use Rattle.text.specs.Writing.{HasRoom, Adds};

use itoa::write_digits;

// The most bytes of a number and the byte after it; a u32 has at most ten digits.
pub const NUMBER: usize = 10 + 1;

// How many numbers a row of the program `list` has.
pub const ROW: usize = 7;

// The most bytes of such a row.
pub const LINE: usize = ROW * NUMBER;

// A text that is written into lent memory: its bytes so far are the first `len`.
#[derive(Drop)]
pub struct Text<'a> {
    pub out: &'a mut [u8],
    pub len: usize,
}

impl<'a> Text<'a> {
    // A text that has no bytes yet.
    pub fn new(out: &'a mut [u8]) -> Text<'a>
        ensures { (result.len ≡ 0) × (result.out ≡ out.entry) }
    {
        Text { out, len: 0 }
    }

    // Its bytes so far.
    pub fn written(&self) -> &[u8]
        requires { HasRoom 0 self.now }
        ensures { result.now ≡ take self.now.len self.now.out.now }
    {
        &self.out[..self.len]
    }

    // Writes lent bytes.
    pub fn bytes(&mut self, bytes: &[u8])
        requires { HasRoom (length bytes.now) self.old }
        ensures { Adds bytes.now self.old self.new }
    {
        let end = self.len + bytes.len();
        self.out[self.len..end].copy_from_slice(bytes);
        self.len = end;
    }

    // Writes the numeral of `n` and then the byte `end`.
    #[inline]
    pub fn number(&mut self, n: u32, end: u8)
        requires { HasRoom number_most self.old }
        ensures { Adds (numeral n ++ (end ∷ [])) self.old self.new }
    {
        let mut text = [end; NUMBER];
        let start = write_digits(u64::from(n), &mut text, NUMBER - 1);
        self.bytes(&text[start..]);
    }

    // Writes the row of numbers.
    pub fn row(&mut self, numbers: &[u32])
        requires { HasRoom (number_most * length numbers.now) self.old }
        ensures { Adds (row numbers.now) self.old self.new }
    {
        if let Some((last, others)) = numbers.split_last() {
            for n in others {
                self.number(*n, b',');
            }
            self.number(*last, b'\n');
        }
    }
}
