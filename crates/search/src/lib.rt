// The search for the next time mark in a recording.
#![tactic(auto)]

ghost use Rattle.std.specs.Prelude.{◌*◌, ◌^◌, ◌<◌, ◌≤◌, length};
ghost use Rattle.bits.specs.Bits.{bits, recorded};
ghost use Rattle.search.specs.Search.{NextMark, Hits};

use bits::Part;

// The places of the mark 0101 1111 0001 in the 64 bits of a word, as ones at these places: `rise`, `ones` and `zeros` have a one where
// 01, 11 and 00 begin, and `first`, `second` and `third` where the mark's fours do.
fn marks(word: u64) -> u64
    ensures { Hits (bits 64 word) 0 53 result }
{
    let up = word << 1;
    let rise = !word & up;
    let ones = word & up;
    let zeros = !word & !up;
    let later = rise << 2;
    let first = rise & later;
    let second = ones & (ones << 2);
    let third = zeros & later;
    first & (second << 4) & (third << 8)
}

// The first place from `from` on with the mark, or the bit count, place by place.
fn mark_from(rec: Part, count: usize, from: usize) -> usize
    requires { (count < 2 ^ 32) × (count ≤ 8 * length rec.bytes.now) × (from ≤ count) }
    ensures { NextMark (recorded rec.entry.phase rec.entry.bytes.now count) from result }
{
    for p in from..count.saturating_sub(11) {
        if rec.field(p, 12) == format::MARK {
            return p;
        }
    }
    count
}

// The first place from `from` on with the mark, or the bit count: in the word there, then word by word, 48 places of each, as long as the
// rest has a word, then place by place.
pub fn next_mark(rec: Part, count: usize, from: usize) -> usize
    requires { (count < 2 ^ 32) × (count ≤ 8 * length rec.bytes.now) × (from ≤ count) }
    ensures { NextMark (recorded rec.entry.phase rec.entry.bytes.now count) from result }
{
    let mut p = from;
    if from + 64 <= count {
        let first = from / 8;
        let hits = marks(rec.word(first)) << (from % 8);
        if hits != 0 {
            return from + hits.leading_zeros() as usize;
        }
        let words = (count / 8 - first - 2) / 6;
        for k in 1..words {
            let i = first + 6 * k;
            let hits = marks(rec.word(i));
            if hits != 0 {
                return 8 * i + hits.leading_zeros() as usize;
            }
        }
        p = 8 * (first + 6 * words);
    }
    mark_from(rec, count, p)
}
