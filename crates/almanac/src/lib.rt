// The almanac book: the current record of type 20 of each satellite, 1 to 63. A record that is offered is taken or passed over.
#![tactic(auto)]

ghost use Rattle.std.specs.Prelude.{◌≡◌, not, eqb};
ghost use Rattle.almanac.specs.Days.{days_after};
ghost use Rattle.almanac.specs.Book.{supersedes, empty_entry, holding, empty_book, offer_tests, takes, entry};
ghost use Rattle.almanac.specs.Offers.{OfferPromise};
ghost use Rattle.format.specs.declared.Refusal.TheVariants.{NotAlmanac};
ghost use Rattle.format.specs.Tests.{when};

use format::{Record, Refusal};

// The satellites that a book has an entry for, from 1 on.
pub const SATELLITES: usize = format::LAST_SATELLITE as usize;

// The places of the age EA, field 12, and of the day NA, field 13.
const AGE: usize = 2;

const DAY: usize = 3;

// The most days by which a day is later than another.
const MOST_LATER: u64 = 730;

// The entry of a satellite: empty where `held` is 0; every other number says that it holds the record. The width of the flag leaves no
// byte between the members, so that each byte of a book is one of a flag or of a record's field.
#[repr(C)]
#[derive(Clone, Copy)]
pub struct Entry {
    pub held: u64,
    pub content: Record,
}

// The entries of satellites 1 to 63.
#[repr(C)]
#[derive(Clone, Copy)]
pub struct Book {
    pub entries: [Entry; SATELLITES],
}

impl Default for Entry {
    ghost is_default = { λ e. e ≡ empty_entry };

    fn default() -> Entry {
        Entry {
            held: 0,
            content: Record::default(),
        }
    }
}

impl Default for Book {
    ghost is_default = { λ b. b ≡ empty_book };

    fn default() -> Book {
        Book {
            entries: [Entry::default(); SATELLITES],
        }
    }
}

// How many days after the first of two days the second comes, modulo an interval.
fn days_after(first: i64, second: i64) -> u64
    ensures { result ≡ days_after first second }
{
    let days = types::rows::INTERVAL_DAYS;
    (second.rem_euclid(days) - first.rem_euclid(days)).rem_euclid(days) as u64
}

// Whether a new record supersedes the held one of its satellite: by a later day, or on equal days by its age.
fn supersedes(held: &Record, new: &Record) -> bool
    ensures { result ≡ supersedes held.now new.now }
{
    let days = days_after(held.numbers[DAY], new.numbers[DAY]);
    if days == 0 {
        new.numbers[AGE] < held.numbers[AGE]
    } else {
        days <= MOST_LATER
    }
}

impl Entry {
    // The entry that holds a record.
    pub fn holding(r: &Record) -> Entry
        ensures { result ≡ holding r.now }
    {
        Entry {
            held: 1,
            content: *r,
        }
    }

    // Whether the entry takes a record of its satellite.
    fn takes(&self, r: &Record) -> bool
        ensures { result ≡ takes self.now r.now }
    {
        self.held == 0 || supersedes(&self.content, r)
    }
}

// Refused by 15 where a type is not 20.
#[tactic(auto, unfolding(format::specs::Tests::when))]
fn kind_test(kind: u8) -> Result<(), Refusal>
    ensures { result ≡ when (not (eqb kind 20)) NotAlmanac }
{
    if kind == 20 {
        Ok(())
    } else {
        Err(Refusal::NotAlmanac)
    }
}

// The tests of an offer: 7, 8, 11, 10, then 15.
#[tactic(auto, unfolding(crate::specs::Book::offer_tests), using(format::proofs::Order::and_then))]
fn offer_tests(r: &Record) -> Result<(), Refusal>
    ensures { result ≡ offer_tests r.now }
{
    records::record_tests(r).and(kind_test(r.kind))
}

impl Book {
    // Offers a record, and answers whether it was taken; else it was passed over. A refusal leaves the book unchanged.
    pub fn offer(&mut self, r: &Record) -> Result<bool, Refusal>
        ensures { OfferPromise self.old r.now result self.new }
    {
        offer_tests(r)?;
        let i = usize::from(r.satellite) - 1;
        let taken = self.entries[i].takes(r);
        if taken {
            self.entries[i] = Entry::holding(r);
        }
        Ok(taken)
    }

    // What the book holds for a satellite.
    pub fn entry(&self, satellite: usize) -> Option<Record>
        ensures { result ≡ entry self.now satellite }
    {
        let entry = self.entries.get(satellite.checked_sub(1)?)?;
        if entry.held == 0 {
            None
        } else {
            Some(entry.content)
        }
    }
}
