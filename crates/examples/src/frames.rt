// A frame: its header ANHD, and its delta.
use crate::line::{front, part};
use crate::show;
use anhd::Items;
use buffer::{byte, number16};
use refusal::Refusal;
use state::Sizes;

// B and the contents of an ANHD: the method, the time, the interleave, and the bytes of an item, 16 more for a word.
fn header(d: &[u8], first: bool) {
    match anhd::frame_header(first, byte(d, 0), part(d, 1, d.len())) {
        Ok(header) => {
            show::number(header.method);
            show::number(header.time);
            show::number(header.interleave);
            match header.items {
                Items::Bytes => show::number(1),
                Items::Shorts => show::number(2),
                Items::Longs => show::number(4),
                Items::ShortWords => show::number(18),
                Items::LongWords => show::number(20),
            }
        }
        Err(why) => show::refused(why),
    }
}

// B and the contents of a later frame's ANHD.
pub(crate) fn anhd(d: &[u8]) {
    header(d, false);
}

// B and the contents of the first frame's ANHD.
pub(crate) fn head(d: &[u8]) {
    header(d, true);
}

// The items of so many bytes, or words where it is 16 more.
fn items_of(width: usize) -> Items {
    match width {
        1 => Items::Bytes,
        2 => Items::Shorts,
        18 => Items::ShortWords,
        20 => Items::LongWords,
        _ => Items::Longs,
    }
}

// The number of ops, or the refusal, and the work buffer.
fn applied(a: Result<usize, Refusal>, work: &[u8]) {
    show::number_or_refusal(a);
    show::bytes(work);
}

fn sizes_of(d: &[u8]) -> Sizes {
    Sizes {
        width: number16(d, 1),
        height: number16(d, 3),
        planes: 1,
    }
}

// The bytes of an item, 16 more for a word, the width, the height and a DLTA of one plane: what it makes of four zeros, in a work buffer of
// bytes 07.
pub(crate) fn delta(d: &[u8], out: &mut [u8]) {
    let work = front(out, 4);
    let dlta = part(d, 5, d.len());
    let a = delta::apply(
        work,
        b"\x00\x00\x00\x00",
        dlta,
        sizes_of(d),
        items_of(byte(d, 0)),
    );
    applied(a, work);
}

// The same of a first frame's DLTA.
pub(crate) fn zeros(d: &[u8], out: &mut [u8]) {
    let work = front(out, 4);
    let dlta = part(d, 5, d.len());
    let a = delta::apply_first(work, dlta, sizes_of(d), items_of(byte(d, 0)));
    applied(a, work);
}
