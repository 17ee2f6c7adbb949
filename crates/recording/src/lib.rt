// A recording whose bit count passes the tests.
#![tactic(auto)]

ghost use Rattle.std.specs.Prelude.{◌≡◌, length, IfOk};
ghost use Rattle.format.specs.Tests.{answer_of, count_tests, Passes};

use bits::{Part, Phase};
use format::Refusal;

// The first `count` true bits of lent bytes of a phase, neither too many nor beyond the bytes.
#[derive(Clone, Copy)]
pub struct Recording<'a> {
    pub part: Part<'a>,
    pub count: usize,
    pub ghost passes: { Passes part.bytes.now count },
}

impl<'a> Recording<'a> {
    // Tests 1, 2.
    pub fn new(bytes: &'a [u8], count: usize, phase: Phase) -> Result<Recording<'a>, Refusal>
        ensures tested { answer_of result ≡ count_tests (length bytes.now) count }
        ensures same { IfOk result (λ r. (r.part.bytes.now ≡ bytes.now) × (r.part.phase ≡ phase) × (r.count ≡ count)) }
    {
        answers::count_tests(bytes.len(), count)?;
        Ok(Recording {
            part: Part { bytes, phase },
            count,
        })
    }
}
