// Runs the examples on standard input, one to a line, and writes a line for each: its name and what comes out. A line is a name, a
// colon, a word for the function that is called, and the bytes that it is called with, in hexadecimal with capital letters.
#![tactic(auto)]

mod chunks;
mod frames;
mod line;
mod pictures;
mod records;
mod show;

use buffer::{byte, fill};
use line::{after, part};

// Kept: a match and no table, since some of these functions take out as well, and others do not.
// Calls the function that a word begins to name, with the bytes that follow it; out is for what it writes.
fn call(first: u8, d: &[u8], out: &mut [u8]) {
    match first {
        b'a' => frames::anhd(d),
        b'b' => pictures::bmhd(d),
        b'c' => records::commit(d, out),
        b'd' => frames::delta(d, out),
        b'e' => chunks::end(d),
        b'f' => chunks::find(d),
        b'h' => frames::head(d),
        b'l' => pictures::length(d),
        b'n' => chunks::next(d),
        b'o' => pictures::open(d),
        b'p' => records::put_back(d, out),
        b'r' => pictures::row(d),
        b's' => records::state(d),
        b't' => records::text(d, out),
        b'u' => pictures::unpack(d, out),
        b'v' => records::value(d),
        b'z' => frames::zeros(d, out),
        _ => records::word(d, out),
    }
}

// Runs the example in a line whose name ends before a place.
fn run(text: &[u8], name: usize, d: &mut [u8], out: &mut [u8]) {
    let rest = part(text, name, text.len());
    let n = line::decode(rest, d);
    io::write_all(1, part(text, 0, name));
    fill(out, 7);
    call(byte(rest, 1) as u8, part(d, 0, n), out);
    io::write_all(1, b"\n");
}

// Runs the examples of a text.
fn run_all(text: &[u8], d: &mut [u8], out: &mut [u8]) {
    let mut at = 0;
    // Kept: each turn goes on by the length of its line, so that no range says how often this loop turns.
    while at < text.len() {
        let end = after(text, at, b'\n');
        let example = part(text, at, end);
        run(example, after(example, 0, b':'), d, out);
        at = end;
    }
}

fn main() {
    let mut text = [0u8; 32768];
    let mut d = [0u8; 256];
    let mut out = [0u8; 64];
    let n = io::read_full(0, &mut text);
    run_all(&text[..n], &mut d, &mut out);
}
