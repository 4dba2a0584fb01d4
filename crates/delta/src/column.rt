// One column of a delta: an op count byte and that many ops, read and, if drawing is set, drawn.
ghost use Rattle.std.specs.Prelude.{ℕ, ◌≡◌, ◌+◌, ◌<◌, ◌≤◌, List, length};
ghost use Rattle.delta.specs.Column.{skip_rows, fill, OpKind.same, OpKind.uniq, op_as, read_op, read_ops, read_column};
ghost use Rattle.delta.specs.Walk.{Vertical, Width, Column, Stands, Fits, after_fill, ItemsIn, OpRead, Took};

use crate::rows::draw_taken;
use crate::{Cursor, Shape, Taken};
use refusal::Refusal;

// Where reading stands after count rows got items of size bytes in all; the op's own bytes end at next.
fn after_fill(shape: Shape, c: Cursor, next: usize, count: usize, size: usize) -> Cursor
    requires { Fits shape c next count size }
    ensures { result ≡ after_fill shape c next count size }
{
    let line = c.line + count;
    let ops = c.ops + 1;
    if shape.inline {
        Cursor {
            op: next + size,
            item: c.item,
            line,
            ops,
        }
    } else {
        Cursor {
            op: next,
            item: c.item + size,
            line,
            ops,
        }
    }
}

// Reads an op that gives count rows from the cursor on items of size bytes in all; its own bytes end at next.
#[tactic(auto, unfolding(crate::specs::Column::fill))]
fn take_fill(
    shape: Shape,
    d: &[u8],
    c: Cursor,
    next: usize,
    count: usize,
    size: usize,
    step: usize,
) -> Result<Taken, Refusal>
    requires { Stands shape d.now c 1 × (next ≤ length d.now) × ItemsIn size 0 step shape.item count }
    ensures { OpRead shape d.now 1 (λ base x. fill shape d.now base x next count size step) c result }
{
    if shape.height - c.line < count {
        return Err(Refusal::OpPastLastRow);
    }
    let from = if shape.inline { next } else { c.item };
    if d.len() - from < size {
        return Err(Refusal::DeltaTooShort);
    }
    let next = after_fill(shape, c, next, count, size);
    Ok(Taken::Rows {
        line: c.line,
        from,
        step,
        count,
        next,
    })
}

// Reads the Skip at the cursor.
#[tactic(auto, unfolding(crate::specs::Column::skip_rows))]
fn take_skip(shape: Shape, c: Cursor, rows: usize) -> Result<Taken, Refusal>
    requires { (c.line ≤ shape.height) × (c.op < 18446744073709551615) × (c.ops + 1 < 4294967296) }
    ensures { (d : List ℕ) → c.item ≤ length d → OpRead shape d 1 (λ base x. skip_rows shape x rows) c result }
{
    if shape.height - c.line < rows {
        return Err(Refusal::OpPastLastRow);
    }
    Ok(Taken::Passed(Cursor {
        op: c.op + 1,
        line: c.line + rows,
        ops: c.ops + 1,
        ..c
    }))
}

// Reads the Same at the cursor: a count byte, then one item.
#[tactic(auto, unfolding(crate::specs::Reading::byte_at))]
fn take_same(shape: Shape, d: &[u8], c: Cursor) -> Result<Taken, Refusal>
    requires { Stands shape d.now c 1 × (c.op < length d.now) }
    ensures { OpRead shape d.now 1 (λ base x. op_as shape d.now base x same) c result }
{
    let op = c.op;
    if d.len() - op < 2 {
        return Err(Refusal::DeltaTooShort);
    }
    let count = d[op + 1] as usize;
    take_fill(shape, d, c, op + 2, count, shape.item, 0)
}

// Reads the Uniq of count rows at the cursor.
fn take_uniq(shape: Shape, d: &[u8], c: Cursor, count: usize) -> Result<Taken, Refusal>
    requires { Width shape.item × Stands shape d.now c 1 × (c.op < length d.now) × (count ≤ 127) }
    ensures { OpRead shape d.now 1 (λ base x. op_as shape d.now base x (uniq count)) c result }
{
    let item = shape.item;
    take_fill(shape, d, c, c.op + 1, count, count * item, item)
}

// Reads the op at the cursor.
#[tactic(auto, unfolding(crate::specs::Column::read_op, crate::specs::Reading::byte_at))]
fn take_op(shape: Shape, d: &[u8], c: Cursor) -> Result<Taken, Refusal>
    requires { Width shape.item × Stands shape d.now c 1 }
    ensures { OpRead shape d.now 1 (read_op shape d.now) c result }
{
    let op = c.op;
    if d.len() <= op {
        return Err(Refusal::DeltaTooShort);
    }
    let b = d[op];
    match b {
        0 => take_same(shape, d, c),
        1..=127 => take_skip(shape, c, b as usize),
        128..=255 => take_uniq(shape, d, c, b as usize - 128),
    }
}

// Takes count ops of the column that starts at base.
fn take_ops(
    frame: &mut [u8],
    shape: Shape,
    d: &[u8],
    base: usize,
    count: usize,
    c: Cursor,
    drawing: bool,
) -> Result<Cursor, Refusal>
    requires { Vertical shape × Column shape (length frame.old) base × Stands shape d.now c count }
    ensures { Took frame.old shape d.now (read_ops shape d.now base count) c drawing frame.new count result }
{
    let mut at = c;
    // Counted down, since the loop then keeps one number and not two.
    for _ in (0..count).rev() {
        let op = take_op(shape, d, at)?;
        at = draw_taken(frame, shape, d, base, op, drawing);
    }
    Ok(at)
}

// Takes the column that starts at base: an op count byte and that many ops.
#[tactic(auto, unfolding(crate::specs::Column::read_column, crate::specs::Reading::byte_at))]
pub(crate) fn take_column(
    frame: &mut [u8],
    shape: Shape,
    d: &[u8],
    base: usize,
    c: Cursor,
    drawing: bool,
) -> Result<Cursor, Refusal>
    requires { Vertical shape × Column shape (length frame.old) base × Stands shape d.now c 255 }
    ensures { Took frame.old shape d.now (read_column shape d.now base) c drawing frame.new 255 result }
{
    let op = c.op;
    if d.len() <= op {
        return Err(Refusal::DeltaTooShort);
    }
    let count = d[op] as usize;
    let top = Cursor {
        op: op + 1,
        line: 0,
        ..c
    };
    take_ops(frame, shape, d, base, count, top, drawing)
}
