// The delta of a frame, DLTA of method 2, 3, 5 or 7: checked whole, then drawn.
#![tactic(auto)]

ghost use Rattle.std.specs.Prelude.{◌≡◌, ◌*◌, ◌<◌, ◌≤◌, length, replicate};
ghost use Rattle.delta.specs.Reading.{bytes_in_plane, column_shape, word_shape, shape_of};
ghost use Rattle.delta.specs.Column.{read_columns};
ghost use Rattle.refusal.specs.Number.{result_of};
ghost use Rattle.delta.specs.Delta.{list_pointer, data_pointer, read_plane, read_picture, Applies};
ghost use Rattle.delta.specs.Walk.{Vertical, Columns, Planes, Stands, top, Took, Checked};

mod column;
mod rows;
mod words;

use anhd::Items;
use buffer::{fill, number32};
use column::take_column;
use copies::copy_long;
use refusal::Refusal;
use state::Sizes;
use words::take_words;

// What a delta is read by: the bytes of an item or word, whether items stand in the op list, whether the lists are lists of words, bytes
// per row, height, planes, bytes per plane, and the bytes of the pointers before the lists. For words a row is one word.
// Kept: Width, Column and Stands stand in contracts and not in types, and two flags here, since the definition column_shape makes a Shape of any item.
#[derive(Clone, Copy, Debug, PartialEq, Eq)]
pub struct Shape {
    pub item: usize,
    pub inline: bool,
    pub words: bool,
    pub row: usize,
    pub height: usize,
    pub planes: usize,
    pub plane: usize,
    pub pointers: usize,
}

// Where reading stands: the place in the list, the place in the data list, the row, and the number of ops counted so far.
#[derive(Clone, Copy, Default)]
struct Cursor {
    op: usize,
    item: usize,
    line: usize,
    ops: usize,
}

// What an op does: count rows, the first of which is line, get items from a place of the delta on, step bytes apart; or it only goes down.
#[derive(Clone, Copy)]
enum Taken {
    Rows {
        line: usize,
        from: usize,
        step: usize,
        count: usize,
        next: Cursor,
    },
    Passed(Cursor),
}

// Kept: the bound on sizes stands in three contracts and not in Sizes, whose values are of any size.
// The shape of columns of items.
fn column_shape(sizes: Sizes, item: usize, inline: bool) -> Shape
    requires { bytes_in_plane sizes ≤ 1024 * 128 }
    ensures { result ≡ column_shape sizes item inline }
{
    let row = sizes.row_bytes();
    let height = sizes.height;
    Shape {
        item,
        inline,
        words: false,
        row,
        height,
        planes: sizes.planes,
        plane: height * row,
        pointers: 64,
    }
}

// The shape of lists of words.
fn word_shape(sizes: Sizes, word: usize) -> Shape
    requires { (bytes_in_plane sizes ≤ 1024 * 128) × (0 < word) }
    ensures { result ≡ word_shape sizes word }
{
    let plane = sizes.height * sizes.row_bytes();
    let height = plane / word;
    Shape {
        item: word,
        inline: true,
        words: true,
        row: word,
        height,
        planes: sizes.planes,
        plane,
        pointers: 32,
    }
}

fn shape_of(sizes: Sizes, items: Items) -> Shape
    requires { bytes_in_plane sizes ≤ 1024 * 128 }
    ensures { result ≡ shape_of sizes items }
{
    match items {
        Items::Bytes => column_shape(sizes, 1, true),
        Items::Shorts => column_shape(sizes, 2, false),
        Items::Longs => column_shape(sizes, 4, false),
        Items::ShortWords => word_shape(sizes, 2),
        Items::LongWords => word_shape(sizes, 4),
    }
}

// Kept: shape, d and drawing as parameters here, in column, rows and words: as a struct with methods, which proved, deltas took up to 1.5 times as long.
// Takes count columns, the first of which starts at base.
fn take_columns(
    frame: &mut [u8],
    shape: Shape,
    d: &[u8],
    count: usize,
    base: usize,
    c: Cursor,
    drawing: bool,
) -> Result<Cursor, Refusal>
    requires { Vertical shape × (1 ≤ shape.height) × Columns shape (length frame.old) base count × Stands shape d.now c (255 * count) }
    ensures { Took frame.old shape d.now (read_columns shape d.now count base) c drawing frame.new (255 * count) result }
{
    let mut at = c;
    for i in 0..count {
        at = take_column(frame, shape, d, base + i * shape.item, at, drawing)?;
    }
    Ok(at)
}

// The place that pointer i leads to, after so many bytes of pointers.
#[tactic(auto, unfolding(crate::specs::Delta::list_pointer))]
fn list_pointer(d: &[u8], pointers: usize, i: usize) -> Result<usize, Refusal>
    requires { i < 16 }
    ensures { result_of result ≡ list_pointer d.now pointers i }
{
    let at = number32(d, 4 * i);
    if at < pointers {
        return Err(Refusal::BadPointer);
    }
    if d.len() < at {
        return Err(Refusal::BadPointer);
    }
    Ok(at)
}

// The place where the items of a plane start.
fn data_pointer(shape: Shape, d: &[u8], plane: usize) -> Result<usize, Refusal>
    requires { plane < 8 }
    ensures { result_of result ≡ data_pointer shape d.now plane }
{
    if shape.inline {
        return Ok(0);
    }
    list_pointer(d, shape.pointers, plane + 8)
}

// Takes a plane: its pointers, then its list of words or its columns.
#[tactic(auto, unfolding(crate::specs::Delta::read_plane))]
fn take_plane(
    frame: &mut [u8],
    shape: Shape,
    d: &[u8],
    plane: usize,
    c: Cursor,
    drawing: bool,
) -> Result<Cursor, Refusal>
    requires { Planes shape (length frame.old) × (plane < shape.planes) × Stands shape d.now c (255 * 128) }
    ensures { Took frame.old shape d.now (read_plane shape d.now plane) c drawing frame.new (255 * 128) result }
{
    if number32(d, 4 * plane) == 0 {
        return Ok(c);
    }
    let op = list_pointer(d, shape.pointers, plane)?;
    let item = data_pointer(shape, d, plane)?;
    let top = Cursor {
        op,
        item,
        line: 0,
        ops: c.ops,
    };
    let base = plane * shape.plane;
    if shape.words {
        return take_words(frame, shape, d, base, top, drawing);
    }
    take_columns(frame, shape, d, shape.row / shape.item, base, top, drawing)
}

// Takes the whole delta.
#[tactic(auto, unfolding(crate::specs::Delta::read_picture))]
fn take_delta(frame: &mut [u8], shape: Shape, d: &[u8], drawing: bool) -> Result<Cursor, Refusal>
    requires { Planes shape (length frame.old) }
    ensures { Took frame.old shape d.now (read_picture shape d.now) top drawing frame.new (255 * 128 * 8) result }
{
    let mut at = Cursor::default();
    if d.len() < shape.pointers {
        return Err(Refusal::BadPointer);
    }
    for plane in 0..shape.planes {
        at = take_plane(frame, shape, d, plane, at, drawing)?;
    }
    Ok(at)
}

// Checks the whole delta for a picture of so many bytes; nothing is drawn.
#[tactic(auto, unfolding(crate::specs::Delta::read_frame))]
fn check(
    work: &mut [u8],
    bytes: usize,
    dlta: &[u8],
    sizes: Sizes,
    items: Items,
) -> Result<Cursor, Refusal>
    ensures { Checked work.old bytes dlta.now sizes items work.new result }
{
    let frame = sizes.frame_length()?;
    if bytes != frame {
        return Err(Refusal::BufferLength);
    }
    if work.len() != frame {
        return Err(Refusal::BufferLength);
    }
    if !anhd::columns_ok(items, sizes.row_bytes()) {
        return Err(Refusal::OddLongColumns);
    }
    take_delta(work, shape_of(sizes, items), dlta, false)
}

// Builds the frame that a delta makes of a picture, all or nothing, and tells how many ops its columns have; of lists of words none are
// counted.
pub fn apply(
    work: &mut [u8],
    picture: &[u8],
    dlta: &[u8],
    sizes: Sizes,
    items: Items,
) -> Result<usize, Refusal>
    ensures { Applies work.old picture.now dlta.now sizes items (result_of result) work.new }
{
    check(work, picture.len(), dlta, sizes, items)?;
    copy_long(work, picture);
    // This walk isn't refused, since the one before it wasn't.
    let end = take_delta(work, shape_of(sizes, items), dlta, true).unwrap();
    Ok(end.ops)
}

// Kept: one function for both, with a closure that fills the buffer, would be longer than the three lines that the two share.
// Builds the frame that a delta makes of zeros, all or nothing, and tells how many ops its columns have, as `apply` does.
pub fn apply_first(
    work: &mut [u8],
    dlta: &[u8],
    sizes: Sizes,
    items: Items,
) -> Result<usize, Refusal>
    ensures { Applies work.old (replicate (length work.old) 0) dlta.now sizes items (result_of result) work.new }
{
    check(work, work.len(), dlta, sizes, items)?;
    fill(work, 0);
    // This walk isn't refused, since the one before it wasn't.
    let end = take_delta(work, shape_of(sizes, items), dlta, true).unwrap();
    Ok(end.ops)
}
