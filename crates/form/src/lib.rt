// FORM ANIM: where it ends, and the frames in it.
#![tactic(auto, unfolding(crate::specs::Form::anim_end))]

ghost use Rattle.std.specs.Prelude.{◌≡◌};
ghost use Rattle.refusal.specs.Number.{result_of};
ghost use Rattle.form.specs.Form.{anim_end, next_form, form_of};

use buffer::number32;
use iff::chunk_at;
use iff::ids::{ANIM, FORM, ILBM};
use refusal::Refusal;

// A FORM ILBM: len bytes of chunks from start on; next is past the FORM and its pad.
// Kept: places and no slice, since the definition next_form says where the chunks stand.
#[derive(Clone, Copy, Debug, PartialEq, Eq)]
pub struct Ilbm {
    pub start: usize,
    pub len: usize,
    pub next: usize,
}

// The end place of FORM ANIM.
pub fn anim_end(file: &[u8]) -> Result<usize, Refusal>
    ensures { result_of result ≡ anim_end file.now }
{
    if file.len() < 12 {
        return Err(Refusal::ChunkPastParent);
    }
    if number32(file, 0) != FORM {
        return Err(Refusal::NotFormAnim);
    }
    if number32(file, 8) != ANIM {
        return Err(Refusal::NotFormAnim);
    }
    let len = number32(file, 4);
    if len < 4 {
        return Err(Refusal::ChunkPastParent);
    }
    if file.len() - 8 < len {
        return Err(Refusal::ChunkPastParent);
    }
    Ok(len + 8)
}

// The next FORM ILBM from a place on, if there is one; other chunks are passed over.
pub fn next_form(s: &[u8], from: usize) -> Result<Option<Ilbm>, Refusal>
    ensures { form_of result ≡ next_form s.now from }
{
    let mut at = from;
    while let Some(chunk) = chunk_at(s, at)? {
        if chunk.id == FORM {
            if chunk.len < 4 {
                return Err(Refusal::ChunkPastParent);
            }
            if number32(s, chunk.start) == ILBM {
                return Ok(Some(Ilbm {
                    start: chunk.start + 4,
                    len: chunk.len - 4,
                    next: chunk.next,
                }));
            }
        }
        at = chunk.next;
    }
    Ok(None)
}
