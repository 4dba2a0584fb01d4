// Lists the ANIM file on standard input: its picture's sizes, a line for each frame, and how it ends. An input that can't be read
// isn't listed; `main` returns that error, and that of an output that can't be written.
#![tactic(auto)]

use input::read_full;
use listing::list;
use std::io;
use std::io::Write;

// The file's buffer has a byte more than the longest file that is listed; the text's buffer holds every listing whole (`listing_short`).
fn main(rt: HostRuntime) -> io::Result<()> {
    let mut file = [0u8; 65537];
    let mut a = [0u8; 16384];
    let mut b = [0u8; 16384];
    let mut map = [0u8; 768];
    let mut work = [0u8; 16384];
    let mut rec = [0u8; 65536];
    let mut out = [0u8; 65536];
    let n = read_full(&mut rt.stdin(), &mut file)?;
    let k = list(
        &file[..n],
        &mut a,
        &mut b,
        &mut map,
        &mut work,
        &mut rec,
        &mut out,
    );
    io::writer(&rt).write_all(&out[..k])
}
