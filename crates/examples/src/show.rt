// What comes out: numbers, bytes in hexadecimal, nothing, or a refusal.
use crate::line::part;
use refusal::Refusal;

pub(crate) fn number(n: usize) {
    io::write_all(1, b" ");
    io::print_decimal(1, n as u64);
}

pub(crate) fn none() {
    io::write_all(1, b" none");
}

pub(crate) fn refused(why: Refusal) {
    io::write_all(1, b" refused ");
    io::print_decimal(1, why.number());
}

pub(crate) fn number_or_refusal(r: Result<usize, Refusal>) {
    match r {
        Ok(n) => number(n),
        Err(why) => refused(why),
    }
}

pub(crate) fn bytes(s: &[u8]) {
    for &b in s {
        io::write_all(1, b" ");
        io::print_hex(1, u64::from(b), 2);
    }
}

// The first two colours of a map.
pub(crate) fn colours(map: &[u8]) {
    bytes(part(map, 0, 6));
}
