// Step records, numbers of eight bytes, and the text of a line.
use crate::line::{front, part};
use crate::show;
use buffer::{byte, number32};
use copies::copy;
use lines::Line;

// A number of a record: its value, and the place after it.
pub(crate) fn value(d: &[u8]) {
    match number::read(d, 0) {
        Some(number) => {
            show::number(number.value);
            show::number(number.next);
        }
        None => show::none(),
    }
}

// The length of a record buffer of bytes 07, a picture and a CMAP: the length of the record of the step to frame 2 from four zeros, a map of
// zeros and the place 64, how many bytes changed, the record buffer, and the first two colours of the map.
pub(crate) fn commit(d: &[u8], out: &mut [u8]) {
    let mut hidden = [0u8; 4];
    let mut map = [0u8; 768];
    let room = front(out, byte(d, 0));
    let new = part(d, 1, 5);
    let r = record::commit(room, 2, 64, &mut hidden, new, &mut map, part(d, 5, d.len()));
    match r {
        Ok(recorded) => {
            show::number(recorded.length);
            show::number(recorded.changed);
        }
        Err(why) => show::refused(why),
    }
    show::bytes(room);
    show::colours(&map);
}

// The frame number, the next place, four bytes of the shown picture and a record: the place before its step, the picture, and the first two
// colours of the map, of bytes 07 before.
pub(crate) fn put_back(d: &[u8], out: &mut [u8]) {
    let mut map = [7u8; 768];
    let shown = front(out, 4);
    copy(shown, part(d, 2, 6));
    let bytes = part(d, 6, d.len());
    show::number_or_refusal(restore::restore(bytes, shown, &mut map, byte(d, 0), byte(d, 1)));
    show::bytes(shown);
    show::colours(&map);
}

// A number of four bytes: its eight bytes, the lowest first.
pub(crate) fn word(d: &[u8], out: &mut [u8]) {
    let eight = front(out, 8);
    write_words::write_number(eight, number32(d, 0));
    show::bytes(eight);
}

// A state in 48 bytes: its width.
pub(crate) fn state(d: &[u8]) {
    let state = words::read_state(d);
    let sizes = state.sizes;
    show::number(sizes.width);
}

// A number of four bytes: the last line of a listing that ends at that frame.
pub(crate) fn text(d: &[u8], out: &mut [u8]) {
    let n = lines::put_line(out, 0, Line::End(number32(d, 0)));
    if 0 < n {
        io::write_all(1, b" ");
        io::write_all(1, part(out, 0, n - 1));
    }
}
