// The header of the first picture: the contents of its BMHD.
#![tactic(auto, unfolding(crate::specs::Header::bitmap_header))]

ghost use Rattle.std.specs.Prelude.{◌≡◌};
ghost use Rattle.refusal.specs.Number.{result_of};
ghost use Rattle.bmhd.specs.Header.{sizes_at, bitmap_header};

use buffer::{byte, number16};
use refusal::Refusal;
use state::Sizes;

// What BMHD says of a picture: its sizes, the length of a frame in bytes, and whether BODY is packed by ByteRun1.
#[derive(Clone, Copy, Debug, PartialEq, Eq)]
pub struct Header {
    pub sizes: Sizes,
    pub length: usize,
    pub packed: bool,
}

// The sizes that a BMHD gives, within the limits or not.
fn sizes_at(s: &[u8]) -> Sizes
    ensures { result ≡ sizes_at s.now }
{
    Sizes {
        width: number16(s, 0),
        height: number16(s, 2),
        planes: byte(s, 8),
    }
}

// Reads the contents of a BMHD.
pub fn bitmap_header(s: &[u8]) -> Result<Header, Refusal>
    ensures { result_of result ≡ bitmap_header s.now }
{
    if s.len() != 20 {
        return Err(Refusal::BadBmhd);
    }
    let sizes = sizes_at(s);
    let Ok(length) = sizes.frame_length() else {
        return Err(Refusal::BadBmhd);
    };
    if byte(s, 9) == 1 {
        return Err(Refusal::BadBmhd);
    }
    let compression = byte(s, 10);
    if 1 < compression {
        return Err(Refusal::BadBmhd);
    }
    Ok(Header {
        sizes,
        length,
        packed: compression == 1,
    })
}
