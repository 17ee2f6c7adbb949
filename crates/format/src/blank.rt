// What stands beside a refusal in the C interface: a record with every place 0, and a set of three.
ghost use Rattle.std.specs.Prelude.{◌≡◌};
ghost use Rattle.format.specs.Records.{blank};
ghost use Rattle.format.specs.Sets.{blank_set};

use crate::{PLACES, RAW_BYTES, Record, Set};

impl Default for Record {
    ghost is_default = { λ r. r ≡ blank };

    #[tactic(auto, unfolding(crate::specs::Records::blank))]
    fn default() -> Record {
        Record {
            kind: 0,
            satellite: 0,
            signal: 0,
            validity: 0,
            call: 0,
            attitude: 0,
            correction: 0,
            next: 0,
            time: 0,
            numbers: [0; PLACES],
            minus: 0,
            raw: [0; RAW_BYTES],
        }
    }
}

impl Default for Set {
    ghost is_default = { λ s. s ≡ blank_set };

    fn default() -> Set {
        let blank = Record::default();
        Set {
            first: blank,
            second: blank,
            third: blank,
        }
    }
}
