// Writes the three strings of document 01's example end to end, with 7 zero bits after them, and prints the recording.
#![tactic(auto)]

use format::Record;

fn content(kind: u8, correction: u8, next: u8, time: u64) -> Record {
    Record {
        kind,
        satellite: 5,
        signal: 0,
        validity: 0,
        call: 0,
        attitude: 0,
        correction,
        next,
        time,
        numbers: [0i64; format::PLACES],
        minus: 0,
        raw: [0u8; format::RAW_BYTES],
    }
}

fn main(rt: HostRuntime) {
    let mut rec = [0u8; 79];
    let _ = writing::write(&mut rec, 632, 0, content(0, 3, 1, 99));
    let _ = writing::write(&mut rec, 632, 250, content(1, 3, 0, 100));
    let _ = writing::write(&mut rec, 632, 375, content(0, 0, 0, 101));
    let _ = rt.write_all(&rec);
}
