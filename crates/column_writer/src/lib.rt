// One column of a method 5 delta: the ops that turn a column's old rows into its new ones, measured and written.
#![tactic(auto)]

mod piece;

ghost use Rattle.std.specs.Prelude.{◌≡◌, ◌+◌, ◌<◌, ◌≤◌, length, drop};
ghost use Rattle.laws.specs.Put.{Put};
ghost use Rattle.runs.specs.Runs.{runs_of};
ghost use Rattle.column_writer.specs.Column.{WrittenOp, cut, ops_of, op_bytes, ops_bytes};
ghost use Rattle.column_writer.specs.Piece.{piece_ops, Measured, Prepared};
ghost use Rattle.column_writer.specs.Place.{column_length, Places};
ghost use Rattle.refusal.specs.Number.{result_of};

use crate::piece::{Column, Piece, PieceKind, Totals};
use refusal::Refusal;

// Puts bytes at a place of out where they fit, and answers the place after them.
// Kept: out and a place here and below, since a struct that holds the buffer needs a clause that it stays the same reference.
fn put(out: &mut [u8], at: usize, bytes: &[u8]) -> usize
    requires { at + length bytes.now ≤ length out.old }
    ensures { Put out.old at bytes.now out.new result }
{
    let end = at + bytes.len();
    out[at..end].copy_from_slice(bytes);
    end
}

// Writes Skips over rows at a place of out where they fit, and answers the place after them.
fn write_skips(out: &mut [u8], at: usize, rows: usize) -> usize
    requires { at + length (ops_bytes (cut (WrittenOp.skip rows))) ≤ length out.old }
    ensures { Put out.old at (ops_bytes (cut (WrittenOp.skip rows))) out.new result }
{
    let end = at + rows / 127;
    out[at..end].fill(127);
    let rest = rows % 127;
    if rest == 0 {
        return end;
    }
    out[end] = rest as u8;
    end + 1
}

// Writes one Same.
#[tactic(auto, unfolding(crate::specs::Column::op_bytes))]
fn write_same(out: &mut [u8], at: usize, rows: usize, value: u8) -> usize
    requires { (rows ≤ 255) × (at + length (op_bytes (WrittenOp.same rows value)) ≤ length out.old) }
    ensures { Put out.old at (op_bytes (WrittenOp.same rows value)) out.new result }
{
    put(out, at, &[0, rows as u8, value])
}

// Writes Sames over rows, all of one value.
fn write_sames(out: &mut [u8], at: usize, rows: usize, value: u8) -> usize
    requires { at + length (ops_bytes (cut (WrittenOp.same rows value))) ≤ length out.old }
    ensures { Put out.old at (ops_bytes (cut (WrittenOp.same rows value))) out.new result }
{
    let mut place = at;
    for _ in 0..rows / 255 {
        place = write_same(out, place, 255, value);
    }
    let rest = rows % 255;
    if rest == 0 {
        return place;
    }
    write_same(out, place, rest, value)
}

// Writes one Uniq of the given rows.
#[tactic(auto, unfolding(crate::specs::Column::op_bytes), using(laws::proofs::PutLaws::put_then))]
fn write_uniq(out: &mut [u8], at: usize, rows: &[u8]) -> usize
    requires { (length rows.now ≤ 127) × (at + length (op_bytes (WrittenOp.uniq rows.now)) ≤ length out.old) }
    ensures { Put out.old at (op_bytes (WrittenOp.uniq rows.now)) out.new result }
{
    let start = put(out, at, &[(128 + rows.len()) as u8]);
    put(out, start, rows)
}

// Writes Uniqs of the given rows.
fn write_uniqs(out: &mut [u8], at: usize, rows: &[u8]) -> usize
    requires { at + length (ops_bytes (cut (WrittenOp.uniq rows.now))) ≤ length out.old }
    ensures { Put out.old at (ops_bytes (cut (WrittenOp.uniq rows.now))) out.new result }
{
    let mut place = at;
    for part in rows.chunks(127) {
        place = write_uniq(out, place, part);
    }
    place
}

// Writes a piece of a column that begins at a row.
fn write_piece(out: &mut [u8], at: usize, new: &[u8], row: usize, piece: Piece) -> usize
    requires { (0 < piece.rows) × (row + piece.rows ≤ length new.now)
        × (at + length (ops_bytes (piece_ops piece.kind piece.rows (drop row new.now))) ≤ length out.old) }
    ensures { Put out.old at (ops_bytes (piece_ops piece.kind piece.rows (drop row new.now))) out.new result }
{
    let rows = piece.rows;
    match piece.kind {
        PieceKind::Rest => at,
        PieceKind::Skip => write_skips(out, at, rows),
        PieceKind::Same => write_sames(out, at, rows, new[row]),
        PieceKind::Uniq => {
            let end = row + rows;
            write_uniqs(out, at, &new[row..end])
        }
    }
}

// Writes the ops of a column to the front of room, and counts them.
fn write_ops(room: &mut [u8; 1536], column: &Column<'_>) -> Totals
    ensures { Measured column.now.old.now column.now.new.now result.ops result.bytes
        × Put room.old 0 (ops_bytes (ops_of (runs_of column.now.new.now column.now.old.now))) room.new result.bytes }
{
    let mut ops = 0;
    let mut place = 0;
    let mut row = 0;
    // Kept: each turn goes on by the rows of its piece, so that no range says how often this loop turns.
    while row < column.new.len() {
        let piece = column.next_piece(row);
        let totals = piece.totals();
        place = write_piece(room, place, column.new, row, piece);
        ops += totals.ops;
        row += piece.rows;
    }
    Totals { ops, bytes: place }
}

// Writes what follows a column's op count byte to the front of room: its ops, or Uniqs over all rows where those are too many.
fn prepare(room: &mut [u8; 1536], column: &Column<'_>) -> Totals
    ensures { Prepared column.now.old.now column.now.new.now room.new result.ops result.bytes }
{
    let totals = write_ops(room, column);
    if totals.ops <= 255 {
        return totals;
    }
    let bytes = write_uniqs(room, 0, column.new);
    Totals {
        ops: bytes - column.new.len(),
        bytes,
    }
}

// How many bytes a column is written in: 12 for rows of two lengths and for more than 1,024 rows.
pub fn column_length(old: &[u8], new: &[u8]) -> Result<usize, Refusal>
    ensures { result_of result ≡ column_length old.now new.now }
{
    let column = Column::new(old, new)?;
    Ok(1 + column.measure())
}

// Writes a column at a place of out: 12 as above, 51 if it doesn't fit there, and then out stays as it is.
pub fn write(out: &mut [u8], at: usize, old: &[u8], new: &[u8]) -> Result<usize, Refusal>
    ensures { Places out.old at old.now new.now (result_of result) out.new }
{
    let column = Column::new(old, new)?;
    let mut room = [0; 1536];
    let totals = prepare(&mut room, &column);
    if out.len() < at {
        return Err(Refusal::NoRoom);
    }
    let size = 1 + totals.bytes;
    if out.len() - at < size {
        return Err(Refusal::NoRoom);
    }
    let start = put(out, at, &[totals.ops as u8]);
    Ok(put(out, start, &room[..totals.bytes]))
}
