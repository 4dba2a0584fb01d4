// The list of words of one plane, methods 2 and 3: read and, if drawing is set, drawn.
ghost use Rattle.std.specs.Prelude.{true, ◌≡◌, ◌+◌, ◌<◌, ◌≤◌, length};
ghost use Rattle.delta.specs.Words.{word_run, move_of, word_op, read_words};
ghost use Rattle.delta.specs.Walk.{Width, Column, Stands, OpRead, Took};

use crate::rows::draw_taken;
use crate::{Cursor, Shape, Taken};
use buffer::number16;
use refusal::Refusal;

// Reads count words that stand at a place of the delta and go to the plane's word number line and to those after it.
#[tactic(auto, unfolding(crate::specs::Words::word_run))]
fn take_run(
    shape: Shape,
    d: &[u8],
    c: Cursor,
    line: usize,
    from: usize,
    count: usize,
) -> Result<Taken, Refusal>
    requires { Width shape.item × (c.item ≤ length d.now) × (line < shape.height) × (from ≤ length d.now) × (count < 65536) }
    ensures { OpRead shape d.now 0 (λ base x. word_run shape d.now base x line from count) c result }
{
    if shape.height - line < count {
        return Err(Refusal::WordPastPlane);
    }
    let step = shape.item;
    let size = count * step;
    if d.len() - from < size {
        return Err(Refusal::DeltaTooShort);
    }
    let next = Cursor {
        op: from + size,
        line: line + count.saturating_sub(1),
        ..c
    };
    Ok(Taken::Rows {
        line,
        from,
        step,
        count,
        next,
    })
}

// How many words an offset moves on.
fn move_of(offset: usize) -> usize
    requires { offset < 65535 }
    ensures { result ≡ move_of offset }
{
    if offset < 32768 {
        offset
    } else {
        65534 - offset
    }
}

// Reads the op at the cursor, whose offset isn't −1: the move, the count of a run, and its words.
#[tactic(auto, unfolding(crate::specs::Words::word_op, crate::specs::Reading::pair_at))]
fn take_op(shape: Shape, d: &[u8], c: Cursor, offset: usize) -> Result<Taken, Refusal>
    requires { Width shape.item × Stands shape d.now c 0 × (c.op + 2 ≤ length d.now) × (offset < 65535) }
    ensures { OpRead shape d.now 0 (λ base x. word_op shape d.now base x offset) c result }
{
    let op = c.op;
    let words = move_of(offset);
    if shape.height - c.line <= words {
        return Err(Refusal::WordPastPlane);
    }
    let line = c.line + words;
    if offset < 32768 {
        return take_run(shape, d, c, line, op + 2, 1);
    }
    if d.len() - op < 4 {
        return Err(Refusal::DeltaTooShort);
    }
    let count = number16(d, op + 2);
    take_run(shape, d, c, line, op + 4, count)
}

// Takes the list of words of the plane that starts at base.
pub(crate) fn take_words(
    frame: &mut [u8],
    shape: Shape,
    d: &[u8],
    base: usize,
    c: Cursor,
    drawing: bool,
) -> Result<Cursor, Refusal>
    requires { Width shape.item × Column shape (length frame.old) base × Stands shape d.now c 0 × (c.op ≤ length d.now) × (shape.words ≡ true) }
    ensures { Took frame.old shape d.now (read_words shape d.now base) c drawing frame.new 0 result }
{
    let mut at = c;
    // Kept: the list says by an offset of -1 where it ends, so that no range says how often this loop turns.
    loop {
        if d.len() - at.op < 2 {
            return Err(Refusal::DeltaTooShort);
        }
        let offset = number16(d, at.op);
        if offset == 65535 {
            return Ok(at);
        }
        let op = take_op(shape, d, at, offset)?;
        at = draw_taken(frame, shape, d, base, op, drawing);
    }
}
