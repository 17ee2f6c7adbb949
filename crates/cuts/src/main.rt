// Document 01's plain example 12: reads the string at the start of its standard input with every bit count up to its length, and prints
// each count with reading's number.
#![tactic(auto)]

ghost use Rattle.std.specs.Prelude.{◌*◌, ◌≤◌, ◌<◌, length};
ghost use Rattle.text.specs.Writing.{HasRoom, Adds};
ghost use Rattle.cuts.specs.Cuts.{count_line, cuts, counts, cut_most};

use bits::Phase;
use std::io::Read;
use text::Text;

// How many bit counts there are: from 0 to the string's 250.
const COUNTS: usize = 251;

// The most bytes of the lines: each has two numbers.
const TEXT: usize = 2 * text::NUMBER * COUNTS;

// Writes the line of a bit count.
fn put_cut(rec: &[u8], count: usize, text: &mut Text)
    requires { (count < counts) × HasRoom cut_most text.old }
    ensures { Adds (count_line rec.now count) text.old text.new }
{
    let number = answers::answer_number(&reading::read(rec, count, Phase::Straight, 0));
    text.row(&[count as u32, number]);
}

// Writes a line for each bit count.
fn put_cuts(rec: &[u8], text: &mut Text)
    requires { HasRoom (cut_most * counts) text.old }
    ensures { Adds (cuts rec.now counts) text.old text.new }
{
    for count in 0..COUNTS {
        put_cut(rec, count, text);
    }
}

// Reads the input until the buffer is full, the input ends or it can't be read, and answers how many bytes came.
fn read_full<R: Read>(input: &mut R, buf: &mut [u8]) -> usize
    ensures { result ≤ length buf.old }
{
    let mut done: usize = 0;
    while done < buf.len() {
        match input.read(&mut buf[done..]) {
            Ok(n) if n > 0 => done += n,
            _ => break,
        }
    }
    done
}

fn main(rt: HostRuntime) {
    let mut rec = [0u8; 32];
    let n = read_full(&mut rt.stdin(), &mut rec);
    let mut out = [0u8; TEXT];
    let mut text = Text::new(&mut out);
    put_cuts(&rec[..n], &mut text);
    let _ = rt.write_all(text.written());
}
