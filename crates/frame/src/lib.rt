// The next frame of an animation: its header, and where its delta and its colours stand.
#![tactic(auto, unfolding(crate::specs::Frame::frame_at, crate::specs::Frame::frame_in))]

ghost use Rattle.std.specs.Prelude.{◌≡◌, ◌+◌, ◌≤◌, length};
ghost use Rattle.frame.specs.Frame.{frame_in, frame_at, framed_of, next_of};

use anhd::{FrameHeader, frame_header};
use form::{Ilbm, next_form};
use iff::ids::{ANHD, CMAP, DLTA};
use iff::{Part, find_three};
use refusal::Refusal;

// The next frame: the place after it, its header, and where the contents of its DLTA and of its CMAP stand in FORM ANIM.
// Kept: places and no slices, since the caller is told where the contents stand, and need not keep the file lent to use the answer.
#[derive(Clone, Copy, Debug, PartialEq, Eq)]
pub struct Next {
    pub next: usize,
    pub header: FrameHeader,
    pub dlta: Part,
    pub cmap: Part,
}

// The frame in a FORM ILBM; without a CMAP its colours are an empty part.
fn frame_in(anim: &[u8], form: Ilbm, row: usize) -> Result<Next, Refusal>
    requires { form.start + form.len ≤ length anim.now }
    ensures { framed_of anim.now result ≡ frame_in anim.now row (record { start = form.start; size = form.len; next = form.next }) }
{
    let end = form.start + form.len;
    let chunks = &anim[form.start..end];
    let three = find_three(chunks, ANHD, DLTA, CMAP)?;
    let anhd = three.first.ok_or(Refusal::NoDelta)?;
    let dlta = three.second.ok_or(Refusal::NoDelta)?;
    let cmap = three.third.unwrap_or(Part { start: 0, len: 0 });
    let stop = anhd.start + anhd.len;
    let header = frame_header(false, row, &chunks[anhd.start..stop])?;
    if !colours::good_length(cmap.len) {
        return Err(Refusal::BadColours);
    }
    let dlta_start = form.start + dlta.start;
    let cmap_start = form.start + cmap.start;
    Ok(Next {
        next: form.next,
        header,
        dlta: Part {
            start: dlta_start,
            len: dlta.len,
        },
        cmap: Part {
            start: cmap_start,
            len: cmap.len,
        },
    })
}

// The next frame from a place of FORM ANIM on, if there is one, for a picture with row bytes per row.
pub fn frame_at(anim: &[u8], at: usize, row: usize) -> Result<Option<Next>, Refusal>
    ensures { next_of anim.now result ≡ frame_at anim.now at row }
{
    let Some(form) = next_form(anim, at)? else {
        return Ok(None);
    };
    let next = frame_in(anim, form, row)?;
    Ok(Some(next))
}
