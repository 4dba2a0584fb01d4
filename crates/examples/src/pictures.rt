// The first picture, and a row of the shown one.
use crate::line::{front, part};
use crate::show;
use buffer::{byte, number16};
use state::{Sizes, State};

// A width and a height of two bytes each, and the planes: the length of a frame.
pub(crate) fn length(d: &[u8]) {
    let sizes = Sizes {
        width: number16(d, 0),
        height: number16(d, 2),
        planes: byte(d, 4),
    };
    show::number_or_refusal(sizes.frame_length());
}

// The contents of a BMHD: width, height, planes, the length of a frame, and whether BODY is packed.
pub(crate) fn bmhd(d: &[u8]) {
    match bmhd::bitmap_header(d) {
        Ok(header) => {
            let sizes = header.sizes;
            show::number(sizes.width);
            show::number(sizes.height);
            show::number(sizes.planes);
            show::number(header.length);
            show::number(header.packed as usize);
        }
        Err(why) => show::refused(why),
    }
}

// The length of a frame of bytes 07, whether BODY is packed, and a BODY of 16 x 2 pixels with a plane for each four bytes: the frame.
pub(crate) fn unpack(d: &[u8], out: &mut [u8]) {
    let sizes = Sizes {
        width: 16,
        height: 2,
        planes: byte(d, 0) / 4,
    };
    let frame = front(out, byte(d, 0));
    if let Err(why) = body::unpack(frame, part(d, 2, d.len()), sizes, byte(d, 1) == 1) {
        show::refused(why);
    }
    show::bytes(frame);
}

// A file: the refusal or the next place, then A and B, each of four bytes 07 before, and the first two colours of the map, of bytes 07
// before.
pub(crate) fn open(d: &[u8]) {
    let mut a = [7u8; 4];
    let mut b = [7u8; 4];
    let mut map = [7u8; 768];
    let r = opening::open(d, &mut a, &mut b, &mut map);
    match r.answer {
        Ok(()) => show::number(r.state.next),
        Err(why) => show::refused(why),
    }
    show::bytes(&a);
    show::bytes(&b);
    show::colours(&map);
}

// A frame number, a plane, a row, and A and B of 16 x 2 pixels in two planes: the row's place, and the row.
pub(crate) fn row(d: &[u8]) {
    let sizes = Sizes {
        width: 16,
        height: 2,
        planes: 2,
    };
    let state = State {
        sizes,
        frame: byte(d, 0),
        next: 100,
        end: 100,
    };
    let a = part(d, 3, 11);
    let b = part(d, 11, 19);
    show::number_or_refusal(shown::row_place(state, a, b, byte(d, 1), byte(d, 2)));
    show::bytes(shown::row(state, a, b, byte(d, 1), byte(d, 2)));
}
