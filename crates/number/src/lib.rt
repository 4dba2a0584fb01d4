// The numbers of step records: groups of seven bits, low group first.
#![tactic(auto)]

ghost use Rattle.std.specs.Prelude.{◌≡◌, ◌+◌, ◌≤◌, length};
ghost use Rattle.std.proofs.lemmas.List.Edits.{sets};
ghost use Rattle.number.specs.Number.{ReadAt, write_number, laid, after, written_of};

// What stands at a place: a number below 2^32, and the place after it.
#[derive(Clone, Copy, Debug, PartialEq, Eq)]
pub struct Number {
    pub value: usize,
    pub next: usize,
}

// The number at a place of s, group by group, or None if it isn't well-formed.
fn read_groups(s: &[u8], at: usize) -> Option<Number>
    ensures { ReadAt s.now at result }
{
    let mut weight: usize = 1;
    let mut sum: usize = 0;
    for k in 0..5 {
        let i = at + k;
        if s.len() <= i {
            return None;
        }
        let b = s[i] as usize;
        if b < 128 {
            let value = sum + weight * b;
            if 4294967296 <= value {
                return None;
            }
            let empty = b == 0;
            if empty && weight != 1 {
                return None;
            }
            return Some(Number { value, next: i + 1 });
        }
        sum += weight * (b - 128);
        weight *= 128;
    }
    None
}

// The number at a place of s, or None if it isn't well-formed. Most numbers have one byte, which is the value.
pub fn read(s: &[u8], at: usize) -> Option<Number>
    ensures { ReadAt s.now at result }
{
    if s.len() <= at {
        return None;
    }
    let first = s[at] as usize;
    if first < 128 {
        return Some(Number {
            value: first,
            next: at + 1,
        });
    }
    read_groups(s, at)
}

// How many bytes a number takes.
pub fn written_length(n: u32) -> usize
    ensures { result ≡ length (write_number n) }
{
    if n < 128 {
        return 1;
    }
    if n < 16384 {
        return 2;
    }
    if n < 2097152 {
        return 3;
    }
    if n < 268435456 {
        return 4;
    }
    5
}

// Writes the groups of a number at a place of out where they fit, and answers the place after them.
// Kept: out and a place here and below, since a struct that holds the buffer needs a clause that it stays the same reference.
fn write_groups(out: &mut [u8], at: usize, n: u32) -> usize
    requires { at + length (write_number n) ≤ length out.old }
    ensures { (result ≡ at + length (write_number n)) × (out.new ≡ sets out.old at (write_number n)) }
{
    let mut i = at;
    let mut rest = n;
    // Kept: a number has as many groups as it needs, so that no range says how often this loop turns.
    while 128 <= rest {
        out[i] = (128 + rest % 128) as u8;
        rest /= 128;
        i += 1;
    }
    out[i] = rest as u8;
    i + 1
}

// Writes a number at a place of out, if it fits there, and answers the place after it; else out stays as it is.
pub fn write(out: &mut [u8], at: usize, n: u32) -> Option<usize>
    ensures { (written_of result ≡ after out.old at (write_number n)) × (out.new ≡ laid out.old at (write_number n)) }
{
    if out.len() < at {
        return None;
    }
    if out.len() - at < written_length(n) {
        return None;
    }
    Some(write_groups(out, at, n))
}
