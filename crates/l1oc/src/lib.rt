// The C interface (`include/l1oc.h`): each function gives the answer of a proved one as the paper's number and value.
#![tactic(auto)]

ghost use Rattle.std.specs.Prelude.{◌≡◌, length};
ghost use Rattle.std.specs.Result.{ResultUnwrapsOrElse};
ghost use Rattle.almanac.specs.Book.{offering, offer_returned, entry};
ghost use Rattle.almanac.specs.Offers.{OfferPromise};
ghost use Rattle.format.specs.Answers.{answer_code, outcome_code, taken_code};
ghost use Rattle.format.specs.Demand3.{ListPromise};
ghost use Rattle.format.specs.Listing.{listing, list_returned};
ghost use Rattle.format.specs.Reading.{reading, read_returned};
ghost use Rattle.format.specs.Sets.{set_reading, set_read_returned, set_writing, set_write_returned, SetReadsBack, SetWritesBack};
ghost use Rattle.format.specs.Sets.{SetReadPromise, SetWritePromise};
ghost use Rattle.format.specs.Values.{power_of, count_of, IsScaled, scaling, scale_returned, ScalePromise};
ghost use Rattle.format.specs.Values.{accuracy, accuracy_returned, day_count, days_returned};
ghost use Rattle.format.specs.Writing.{writing, write_returned, ReadsBack, WritesBack, ReadPromise, WritePromise};
ghost use Rattle.l1oc.specs.Codes.{phase_of, coded, read_coded, set_coded, value_coded, entry_coded};

use almanac::{Book, Entry};
use answers::Code;
use bits::Phase;
use format::{Record, Refusal, Set};

// What reading answers: 0 and 0 beside the record, or a refusal beside a blank one.
#[repr(C)]
#[derive(Clone, Copy)]
pub struct ReadCode {
    pub number: u64,
    pub value: u64,
    pub content: Record,
}

// What reading a set answers: 0 and 0 beside the set, or a refusal beside three blank records.
#[repr(C)]
#[derive(Clone, Copy)]
pub struct SetCode {
    pub number: u64,
    pub value: u64,
    pub content: Set,
}

// What scaling answers: 0 and 0 beside the value, or a refusal beside 0.0.
#[repr(C)]
#[derive(Clone, Copy)]
pub struct ValueCode {
    pub number: u64,
    pub value: u64,
    pub scaled: f64,
}

// Number and value of an answer, and what it gives, or what `Default` has beside a refusal.
fn parts<T: Default + Copy>(answer: Result<T, Refusal>) -> (Code, T)
    ensures { (result.0.number ≡ (answer_code answer).0) × (result.0.value ≡ (answer_code answer).1)
        × ResultUnwrapsOrElse answer T.is_default result.1 }
{
    (answers::answer_code(&answer), answer.unwrap_or_default())
}

// The phase that a number names: 0 straight, every other inverted.
fn phase_of(number: u32) -> Phase
    ensures { result ≡ phase_of number }
{
    if number == 0 {
        Phase::Straight
    } else {
        Phase::Inverted
    }
}

// Lists the starts of the strings in the first `count` true bits.
#[unsafe(no_mangle)]
pub extern "C" fn l1oc_list(bytes: &[u8], count: usize, phase: u32, list: &mut [u32]) -> Code
    ensures answered { result ≡ coded (outcome_code (listing (phase_of phase) bytes.now count (length list.old))) }
    ensures numbered { result ≡ coded (list_returned (phase_of phase) bytes.now count (length list.old)) }
    ensures list_promise { ListPromise (phase_of phase) bytes.now count list.old
        (listing (phase_of phase) bytes.now count (length list.old)) list.new }
{
    answers::outcome_code(listing::list(bytes, count, phase_of(phase), list))
}

// Reads the string at a place: the answer, beside the record or a blank one.
#[unsafe(no_mangle)]
pub extern "C" fn l1oc_read(bytes: &[u8], count: usize, phase: u32, place: usize) -> ReadCode
    ensures answered { result ≡ read_coded (reading (phase_of phase) bytes.now count place) }
    ensures numbered { (result.number ≡ (read_returned (phase_of phase) bytes.now count place).0)
        × (result.value ≡ (read_returned (phase_of phase) bytes.now count place).1) }
    ensures read_promise { ReadPromise (phase_of phase) bytes.now count place
        (reading (phase_of phase) bytes.now count place) }
    ensures writes_back { result.number ≡ 0 → WritesBack (phase_of phase) bytes.now count place result.content }
{
    let mut code = ReadCode {
        number: 0,
        value: 0,
        content: Record::default(),
    };
    let answer = reading::read_into(bytes, count, phase_of(phase), place, &mut code.content);
    let Code { number, value } = answers::answer_code(&answer);
    code.number = number;
    code.value = value;
    code
}

// Writes a record's string at a place, and answers the place after it. A refusal leaves every byte unchanged.
#[unsafe(no_mangle)]
pub extern "C" fn l1oc_write(bytes: &mut [u8], count: usize, place: usize, content: Record) -> Code
    ensures answered { result ≡ coded (outcome_code (writing (length bytes.old) count place content)) }
    ensures numbered { result ≡ coded (write_returned (length bytes.old) count place content) }
    ensures write_promise { WritePromise bytes.old count place content (writing (length bytes.old) count place content)
        bytes.new }
    ensures reads_back { result.number ≡ 0 → ReadsBack bytes.new count place content }
{
    answers::outcome_code(writing::write(bytes, count, place, content))
}

// Reads the set at a place: the answer, beside the set or a blank one.
#[unsafe(no_mangle)]
pub extern "C" fn l1oc_read_set(bytes: &[u8], count: usize, phase: u32, place: usize) -> SetCode
    ensures answered { result ≡ set_coded (set_reading (phase_of phase) bytes.now count place) }
    ensures numbered { (result.number ≡ (set_read_returned (phase_of phase) bytes.now count place).0)
        × (result.value ≡ (set_read_returned (phase_of phase) bytes.now count place).1) }
    ensures set_read_promise { SetReadPromise (phase_of phase) bytes.now count place
        (set_reading (phase_of phase) bytes.now count place) }
    ensures set_writes_back { result.number ≡ 0 → SetWritesBack (phase_of phase) bytes.now count place result.content }
{
    let mut code = SetCode {
        number: 0,
        value: 0,
        content: Set::default(),
    };
    let answer = sets::read_into(bytes, count, phase_of(phase), place, &mut code.content);
    let Code { number, value } = answers::answer_code(&answer);
    code.number = number;
    code.value = value;
    code
}

// Writes a set at a place, and answers the place after it. A refusal leaves every byte unchanged.
#[unsafe(no_mangle)]
pub extern "C" fn l1oc_write_set(bytes: &mut [u8], count: usize, place: usize, content: Set) -> Code
    ensures answered { result ≡ coded (outcome_code (set_writing (length bytes.old) count place content)) }
    ensures numbered { result ≡ coded (set_write_returned (length bytes.old) count place content) }
    ensures set_write_promise { SetWritePromise bytes.old count place content
        (set_writing (length bytes.old) count place content) bytes.new }
    ensures set_reads_back { result.number ≡ 0 → SetReadsBack bytes.new count place content }
{
    answers::outcome_code(sets::write(bytes, count, place, content))
}

// The value of a record's field by its number.
#[unsafe(no_mangle)]
pub extern "C" fn l1oc_scaled(content: Record, field: usize) -> ValueCode
    ensures answered { result ≡ value_coded (scaling content field) }
    ensures numbered { (result.number ≡ (scale_returned content field).0) × (result.value ≡ (scale_returned content field).1) }
    ensures scale_promise { ScalePromise content field (scaling content field) }
    ensures scaled { result.number ≡ 0 → IsScaled (count_of content field) (power_of content.kind field) result.scaled }
{
    let (Code { number, value }, scaled) = parts(values::scaled(&content, field));
    ValueCode {
        number,
        value,
        scaled,
    }
}

// The centimetres of an accuracy factor.
#[unsafe(no_mangle)]
pub extern "C" fn l1oc_accuracy(factor: i64) -> Code
    ensures answered { result ≡ coded (outcome_code (accuracy factor)) }
    ensures numbered { result ≡ coded (accuracy_returned factor) }
{
    answers::outcome_code(values::accuracy(factor))
}

// The days from 1 January 1996 to day `nt` of the four-year interval `n4`.
#[unsafe(no_mangle)]
pub extern "C" fn l1oc_day_count(n4: i64, nt: i64) -> Code
    ensures answered { result ≡ coded (outcome_code (day_count n4 nt)) }
    ensures numbered { result ≡ coded (days_returned n4 nt) }
{
    answers::outcome_code(values::day_count(n4, nt))
}

// Offers a record to an almanac book, and answers whether it was taken. A refusal leaves the book unchanged.
#[unsafe(no_mangle)]
pub extern "C" fn l1oc_offer(book: &mut Book, content: Record) -> Code
    ensures answered { result ≡ coded (taken_code (offering book.old content)) }
    ensures numbered { result ≡ coded (offer_returned book.old content) }
    ensures offer_promise { OfferPromise book.old content (offering book.old content) book.new }
{
    answers::taken_code(book.offer(&content))
}

// What a book holds for a satellite: its entry, or an empty one.
#[unsafe(no_mangle)]
pub extern "C" fn l1oc_entry(book: &Book, satellite: usize) -> Entry
    ensures { result ≡ entry_coded (entry book.now satellite) }
{
    match book.entry(satellite) {
        Some(content) => Entry::holding(&content),
        None => Entry::default(),
    }
}
