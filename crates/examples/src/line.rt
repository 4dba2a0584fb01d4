// What a line holds.
ghost use Rattle.std.specs.Prelude.{◌<◌, ◌≤◌, length};

// The place after the next byte of a value from a place on, or the end.
pub(crate) fn after(s: &[u8], from: usize, value: u8) -> usize
    ensures { from < length s.now → from < result }
{
    for i in from..s.len() {
        if s[i] == value {
            return i + 1;
        }
    }
    s.len()
}

// The bytes from a place to another; none where they don't lie there.
pub(crate) fn part(s: &[u8], from: usize, to: usize) -> &[u8] {
    s.get(from..to).unwrap_or(&[])
}

// The first n bytes, or all where there are fewer.
pub(crate) fn front(s: &mut [u8], n: usize) -> &mut [u8] {
    if s.len() < n {
        return s;
    }
    &mut s[0..n]
}

// The value of a hexadecimal digit; 16 for every other byte.
fn digit(c: u8) -> u8
    ensures { result ≤ 16 }
{
    match c {
        48..=57 => c - 48,
        65..=70 => c - 55,
        _ => 16,
    }
}

// Puts the byte of two digits at a place of out, if they are digits and there is room, and answers the place after it.
fn put(out: &mut [u8], at: usize, high: u8, low: u8) -> usize {
    if out.len() <= at {
        return at;
    }
    if 15 < high {
        return at;
    }
    if 15 < low {
        return at;
    }
    out[at] = 16 * high + low;
    at + 1
}

// Puts the bytes in a text to the front of out, and answers how many there are. Each is two digits, with other bytes around them.
pub(crate) fn decode(text: &[u8], out: &mut [u8]) -> usize {
    let mut n = 0;
    for pair in text.windows(2) {
        n = put(out, n, digit(pair[0]), digit(pair[1]));
    }
    n
}
