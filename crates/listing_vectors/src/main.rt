// Lists the outside vectors, 001.anim to 168.anim, each under its name.
#![tactic(auto)]

use input::read_full;
use listing::list;
use std::fs::File;
use std::io;
use std::io::Write;

// Lists one file.
// Kept: beside the main of anim_list, since one function for both, public and with a contract and edits, is longer than these lines.
fn show(rt: &HostRuntime, opened: &mut File) -> io::Result<()> {
    let mut file = [0u8; 65537];
    let mut a = [0u8; 16384];
    let mut b = [0u8; 16384];
    let mut map = [0u8; 768];
    let mut work = [0u8; 16384];
    let mut rec = [0u8; 65536];
    let mut out = [0u8; 65536];
    let n = read_full(opened, &mut file)?;
    let k = list(
        &file[..n],
        &mut a,
        &mut b,
        &mut map,
        &mut work,
        &mut rec,
        &mut out,
    );
    io::writer(rt).write_all(&out[..k])
}

// Opens one file by its number and lists it.
// Kept: digits by hand and no format!, which would take memory from the heap.
fn open(rt: &HostRuntime, number: u8) -> io::Result<()> {
    let name = [
        b'0' + number / 100,
        b'0' + number / 10 % 10,
        b'0' + number % 10,
        b'.',
        b'a',
        b'n',
        b'i',
        b'm',
    ];
    let Ok(name) = str::from_utf8(&name) else {
        return Err(io::Error::from(io::ErrorKind::InvalidInput));
    };
    println!(rt; "{name}")?;
    let mut file = File::open(rt, name)?;
    show(rt, &mut file)
}

fn main(rt: HostRuntime) -> io::Result<()> {
    for number in 1..169 {
        open(&rt, number)?;
    }
    Ok(())
}
