// Chunks, and the frames of FORM ANIM.
use crate::line::part;
use crate::show;
use buffer::{number16, number32};

// An id and a parent: where the contents of the first chunk of the id start, their length, and the contents.
pub(crate) fn find(d: &[u8]) {
    let id = number32(d, 0);
    let parent = part(d, 4, d.len());
    match iff::find(parent, id) {
        Ok(Some(part)) => {
            show::number(part.start);
            show::number(part.len);
        }
        Ok(None) => show::none(),
        Err(why) => show::refused(why),
    }
    show::bytes(iff::contents(parent, id));
}

// A file: the end place of FORM ANIM.
pub(crate) fn end(d: &[u8]) {
    show::number_or_refusal(form::anim_end(d));
}

// A place of two bytes and FORM ANIM: where the chunks of the next frame start, their length, and the place after it.
pub(crate) fn next(d: &[u8]) {
    match form::next_form(part(d, 2, d.len()), number16(d, 0)) {
        Ok(Some(form)) => {
            show::number(form.start);
            show::number(form.len);
            show::number(form.next);
        }
        Ok(None) => show::none(),
        Err(why) => show::refused(why),
    }
}
