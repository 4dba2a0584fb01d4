// The rows of an op, columns' or words': drawn if drawing is set.
ghost use Rattle.std.specs.Prelude.{◌≡◌, ◌+◌, ◌≤◌, length, take, drop};
ghost use Rattle.std.proofs.lemmas.List.Edits.{sets};
ghost use Rattle.delta.specs.Walk.{Width, Column, Down, ItemsIn, Lies, drawn_rows, Drawn};

use crate::{Cursor, Shape, Taken};
use copies::copy;

// Puts two bytes at a place of the frame.
fn put_pair(frame: &mut [u8], at: usize, d: &[u8], from: usize)
    requires { (at + 2 ≤ length frame.old) × (from + 2 ≤ length d.now) }
    ensures { frame.new ≡ sets frame.old at (take 2 (drop from d.now)) }
{
    // Kept: with copy_from_slice, which LLVM puts behind a test whether the two slices overlap, deltas took up to 2.7 times as long.
    let a = d[from];
    let b = d[from + 1];
    frame[at] = a;
    frame[at + 1] = b;
}

// Puts one item of one, two or four bytes at a place of the frame.
fn put_item(frame: &mut [u8], at: usize, d: &[u8], from: usize, item: usize)
    requires { (at + item ≤ length frame.old) × (from + item ≤ length d.now) × Width item }
    ensures { frame.new ≡ sets frame.old at (take item (drop from d.now)) }
{
    if item == 1 {
        frame[at] = d[from];
        return;
    }
    put_pair(frame, at, d, from);
    if item == 4 {
        put_pair(frame, at + 2, d, from + 2);
    }
}

// Puts items, step bytes apart in the delta, into count rows from a place of the frame on, if drawing is set. Items that lie one after
// the other in both are copied at once.
fn draw_rows(
    frame: &mut [u8],
    place: usize,
    d: &[u8],
    from: usize,
    step: usize,
    count: usize,
    shape: Shape,
    drawing: bool,
)
    requires { Width shape.item × Down shape (length frame.old) place count × ItemsIn (length d.now) from step shape.item count }
    ensures { frame.new ≡ drawn_rows frame.old place d.now from step count shape drawing }
{
    if !drawing {
        return;
    }
    let item = shape.item;
    let row = shape.row;
    if row == item && step == item && 1 < count {
        let end = place + count * item;
        let to = from + count * item;
        copy(&mut frame[place..end], &d[from..to]);
        return;
    }
    let mut at = place;
    let mut item_at = from;
    // Counted down, since LLVM then moves each place on by one addition.
    for _ in (0..count).rev() {
        put_item(frame, at, d, item_at, item);
        at += row;
        item_at += step;
    }
}

// Draws the rows of an op that was read, in the column that starts at base, if drawing is set.
pub(crate) fn draw_taken(
    frame: &mut [u8],
    shape: Shape,
    d: &[u8],
    base: usize,
    op: Taken,
    drawing: bool,
) -> Cursor
    requires { Width shape.item × Column shape (length frame.old) base × Lies shape d.now op }
    ensures { Drawn frame.old shape d.now base op drawing frame.new result }
{
    match op {
        Taken::Passed(next) => next,
        Taken::Rows {
            line,
            from,
            step,
            count,
            next,
        } => {
            let place = base + line * shape.row;
            draw_rows(frame, place, d, from, step, count, shape, drawing);
            next
        }
    }
}
