// The header of a frame, ANHD.
#![tactic(auto, unfolding(crate::specs::Anhd::frame_header))]

ghost use Rattle.std.specs.Prelude.{◌≡◌};
ghost use Rattle.refusal.specs.Number.{result_of};
ghost use Rattle.anhd.specs.Anhd.{method_ok, interleave_ok, bits_ok, items_of, columns_ok, frame_header};

use buffer::{byte, number32};
use refusal::Refusal;

// The items of a delta: bytes in an op list (method 5), shorts or longs in a data list (method 7), or the words of two bytes (method 3) or
// four (method 2) of a list of words.
#[derive(Clone, Copy, Debug, PartialEq, Eq)]
pub enum Items {
    Bytes,
    Shorts,
    Longs,
    ShortWords,
    LongWords,
}

// What ANHD says of a frame: the method, the time after the frame before, the interleave, and the items of its delta.
// Kept: the method and the interleave stay numbers, since the definition frame_header hands on ANHD's bytes, and a report gives the method to C.
#[derive(Clone, Copy, Debug, PartialEq, Eq)]
pub struct FrameHeader {
    pub method: usize,
    pub time: usize,
    pub interleave: usize,
    pub items: Items,
}

// Whether a method is read.
fn method_ok(method: usize) -> bool
    ensures { result ≡ method_ok method }
{
    matches!(method, 2 | 3 | 5 | 7)
}

// Whether an interleave is taken, in the first frame or a later one.
// Kept: a flag here and below, since the definition frame_header has it.
fn interleave_ok(first: bool, interleave: usize) -> bool
    ensures { result ≡ interleave_ok first interleave }
{
    first || interleave <= 2
}

fn bits_ok(method: usize, bits: usize) -> bool
    ensures { result ≡ bits_ok method bits }
{
    if method == 7 {
        bits / 2 == 0
    } else {
        bits == 0
    }
}

fn items_of(method: usize, bits: usize) -> Items
    ensures { result ≡ items_of method bits }
{
    match method {
        2 => Items::LongWords,
        3 => Items::ShortWords,
        5 => Items::Bytes,
        _ if bits % 2 == 1 => Items::Longs,
        _ => Items::Shorts,
    }
}

// Whether rows of so many bytes, an even number, are made of whole columns of such items; lists of words have no columns.
pub fn columns_ok(items: Items, row: usize) -> bool
    ensures { result ≡ columns_ok items row }
{
    match items {
        Items::Longs => row % 4 == 0,
        Items::Bytes | Items::Shorts | Items::ShortWords | Items::LongWords => true,
    }
}

// Reads the contents of an ANHD, of the first frame or a later one, for a picture with row bytes per row.
pub fn frame_header(first: bool, row: usize, s: &[u8]) -> Result<FrameHeader, Refusal>
    ensures { result_of result ≡ frame_header first row s.now }
{
    if s.len() < 40 {
        return Err(Refusal::ShortAnhd);
    }
    let method = byte(s, 0);
    if !method_ok(method) {
        return Err(Refusal::UnknownMethod);
    }
    let interleave = byte(s, 18);
    if !interleave_ok(first, interleave) {
        return Err(Refusal::UnknownInterleave);
    }
    let bits = number32(s, 20);
    if !bits_ok(method, bits) {
        return Err(Refusal::UnknownOptions);
    }
    let items = items_of(method, bits);
    if !columns_ok(items, row) {
        return Err(Refusal::OddLongColumns);
    }
    Ok(FrameHeader {
        method,
        time: number32(s, 14),
        interleave,
        items,
    })
}
