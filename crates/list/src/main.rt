// The program `list`: it lists the recording on its standard input. What it prints is `report` of the crate `report`.
#![tactic(auto)]

ghost use Rattle.std.specs.Prelude.{length};
ghost use Rattle.list.specs.Input.{CameIn};

use std::env::{Env, FillError};
use std::io::{self, ErrorKind, Read};
use std::thread;

// How often in a row input that is not there yet is asked for again: for about a minute.
const PATIENCE: usize = 67108864;

// Says on standard error what is wrong.
fn complain(rt: &impl Eprint, text: &str) {
    let _ = rt.eprintln(text);
}

// Reads from the input once. Where nothing is there yet, as on a pipe that does not wait, or a signal came between, it reads again.
fn read_once<R: Read>(input: &mut R, buf: &mut [u8]) -> io::Result<usize>
    ensures { CameIn (length buf.old) result }
{
    for _ in 0..PATIENCE {
        match input.read(buf) {
            Err(error) if matches!(error.kind(), ErrorKind::WouldBlock | ErrorKind::Interrupted) =>
                thread::yield_now(),
            came => return came,
        }
    }
    Err(ErrorKind::WouldBlock.into())
}

// Reads the input until the buffer is full or the input ends, and answers how many bytes came.
fn read_input<R: Read>(input: &mut R, buf: &mut [u8]) -> io::Result<usize>
    ensures { CameIn (length buf.old) result }
{
    let mut done: usize = 0;
    while done < buf.len() {
        let n = read_once(input, &mut buf[done..])?;
        if n == 0 {
            break;
        }
        done += n;
    }
    Ok(done)
}

// Prints the report of a recording.
fn print_report(rt: &(impl Print + Eprint), rec: &[u8]) {
    let mut out = [0u8; report::REPORT];
    let m = report::report(rec, &mut out);
    if rt.write_all(&out[0..m]).is_err() {
        complain(rt, "list: the output can't be written");
    }
}

// Lists the recording on standard input. Of more bytes than a recording may have it reads one too many and no more; what it prints then is
// the same for every input that begins with them (`report::report`).
fn list_input(rt: &HostRuntime) {
    let mut rec = [0u8; report::BYTES];
    match read_input(&mut rt.stdin(), &mut rec) {
        Ok(n) => print_report(rt, &rec[..n]),
        Err(_) => complain(rt, "list: the input can't be read"),
    }
}

// Whether the program was given an argument.
fn has_argument(rt: &impl Env) -> bool {
    !matches!(rt.arg(1, &mut [0u8; 1]), Err(FillError::NotPresent))
}

fn main(rt: HostRuntime) {
    if has_argument(&rt) {
        complain(
            &rt,
            "list: it takes no arguments; the recording's bytes come on standard input",
        );
    } else {
        list_input(&rt);
    }
}
