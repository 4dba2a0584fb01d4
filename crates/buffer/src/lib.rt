// Bytes in lent buffers: big-endian numbers, parts and fills. Each function takes any buffers; the definitions are those of the crate laws.
#![tactic(auto)]

ghost use Rattle.std.specs.Prelude.{◌≡◌, ◌<◌, length, get_or, take, drop, replicate};
ghost use Rattle.laws.specs.Bytes.{be16, be32};

// The byte at a place, 0 past the end.
fn byte_at(s: &[u8], at: usize) -> u8
    ensures { result ≡ get_or s.now at 0 }
{
    s.get(at).copied().unwrap_or(0)
}

// The byte at a place as a number, 0 past the end.
pub fn byte(s: &[u8], at: usize) -> usize
    ensures { (result ≡ get_or s.now at 0) × (result < 256) }
{
    usize::from(byte_at(s, at))
}

// Two bytes at a place as a number, the higher first; bytes past the end count as 0.
#[tactic(auto, unfolding(laws::specs::Bytes::be16))]
pub fn number16(s: &[u8], at: usize) -> usize
    ensures { (result ≡ be16 s.now at) × (result < 65536) }
{
    if s.len() <= at {
        return 0;
    }
    usize::from(u16::from_be_bytes([byte_at(s, at), byte_at(s, at + 1)]))
}

// Four bytes at a place as a number, the highest first; bytes past the end count as 0.
// Kept: beside number16, since a generic function over FromBytes of num_traits, with its bounds, is longer than the two.
#[tactic(auto, unfolding(laws::specs::Bytes::be32))]
pub fn number32(s: &[u8], at: usize) -> usize
    ensures { (result ≡ be32 s.now at) × (result < 4294967296) }
{
    if s.len() <= at {
        return 0;
    }
    let bytes = [
        byte_at(s, at),
        byte_at(s, at + 1),
        byte_at(s, at + 2),
        byte_at(s, at + 3),
    ];
    u32::from_be_bytes(bytes) as usize
}

// The len bytes of s from start on, as far as s goes.
pub fn part(s: &[u8], start: usize, len: usize) -> &[u8]
    ensures { result.now ≡ take len (drop start s.now) }
{
    let Some(rest) = s.get(start..) else {
        return &[];
    };
    &rest[..len.min(rest.len())]
}

// Makes every byte of dst the given one.
pub fn fill(dst: &mut [u8], value: u8)
    ensures { dst.new ≡ replicate (length dst.old) value }
{
    dst.fill(value);
}
