// The walk down a column: the pieces of rows that become ops of one kind, and the ops measured.
ghost use Rattle.std.specs.Prelude.{◌≡◌, ◌+◌, ◌-◌, ◌*◌, ◌<◌, ◌≤◌, length, get_or, IfOk, IfErr};
ghost use Rattle.laws.specs.Result.{fault};
ghost use Rattle.refusal.specs.Number.{number_of};
ghost use Rattle.column_writer.specs.Column.{column_bytes};
ghost use Rattle.column_writer.specs.Piece.{Unchanged, GroupRows, UniqRows, NextPiece, ops_in, bytes_in};
ghost use Rattle.column_writer.specs.Place.{column_length};

use refusal::Refusal;

// The old and the new rows of a column.
#[derive(Clone, Copy)]
pub(crate) struct Column<'a> {
    pub(crate) old: &'a [u8],
    pub(crate) new: &'a [u8],
    ghost same: { length old.now ≡ length new.now },
    ghost few: { length new.now ≤ 1024 },
}

// The ops that rows of a column become. Rest is the unchanged rows after the last changed one, which write nothing.
#[derive(Clone, Copy)]
pub(crate) enum PieceKind {
    Rest,
    Skip,
    Same,
    Uniq,
}

// Rows of a column that are written as ops of one kind.
#[derive(Clone, Copy)]
pub(crate) struct Piece {
    pub(crate) kind: PieceKind,
    pub(crate) rows: usize,
}

// How many ops there are, and the bytes of those.
#[derive(Clone, Copy)]
pub(crate) struct Totals {
    pub(crate) ops: usize,
    pub(crate) bytes: usize,
}

impl Piece {
    // How many ops a piece is cut into, and the bytes of those.
    // Kept: with div_ceil a delta of many short ops took 8 % longer.
    pub(crate) fn totals(self) -> Totals
        requires { self.rows ≤ 1024 }
        ensures { (result.ops ≡ ops_in self.kind self.rows) × (result.bytes ≡ bytes_in self.kind self.rows) }
    {
        let rows = self.rows;
        match self.kind {
            PieceKind::Rest => Totals { ops: 0, bytes: 0 },
            PieceKind::Skip => {
                let ops = (rows + 126) / 127;
                Totals { ops, bytes: ops }
            }
            PieceKind::Same => {
                let ops = (rows + 254) / 255;
                Totals {
                    ops,
                    bytes: 3 * ops,
                }
            }
            PieceKind::Uniq => {
                let ops = (rows + 126) / 127;
                Totals {
                    ops,
                    bytes: ops + rows,
                }
            }
        }
    }
}

impl<'a> Column<'a> {
    // Refuses rows of two lengths, and more than 1,024 rows.
    #[tactic(auto, unfolding(crate::specs::Place::column_length))]
    pub(crate) fn new(old: &'a [u8], new: &'a [u8]) -> Result<Column<'a>, Refusal>
        ensures ok { IfOk result (λ c. (c.old.now ≡ old.now) × (c.new.now ≡ new.now)) }
        ensures err { IfErr result (λ why. column_length old.now new.now ≡ fault (number_of why)) }
    {
        if old.len() != new.len() || 1024 < new.len() {
            return Err(Refusal::BufferLength);
        }
        Ok(Column { old, new })
    }

    // The first changed row from a row on, or the end.
    fn first_changed(&self, from: usize) -> usize
        requires { from ≤ length self.now.new.now }
        ensures { Unchanged self.now.old.now self.now.new.now from result }
    {
        for i in from..self.new.len() {
            if self.new[i] != self.old[i] {
                return i;
            }
        }
        self.new.len()
    }

    // The end of the group that begins at a changed row: the changed rows from there on with its new value.
    fn group_end(&self, from: usize) -> usize
        requires { (from < length self.now.new.now) × (get_or self.now.new.now from 0 ≡ get_or self.now.old.now from 0 → ⊥) }
        ensures { GroupRows self.now.old.now self.now.new.now from result }
    {
        let value = self.new[from];
        for i in from + 1..self.new.len() {
            if self.new[i] != value || self.new[i] == self.old[i] {
                return i;
            }
        }
        self.new.len()
    }

    // The end of the rows that become Uniqs, where a group of at least four rows begins or the stretch ends. Their first group ends at first.
    fn uniq_end(&self, from: usize, first: usize) -> usize
        requires { GroupRows self.now.old.now self.now.new.now from first × (first - from < 4) }
        ensures { UniqRows self.now.old.now self.now.new.now from result }
    {
        let mut i = first;
        // Kept: each turn goes on by the rows of a group, so that no range says how often this loop turns.
        while i < self.new.len() {
            if self.new[i] == self.old[i] {
                return i;
            }
            let end = self.group_end(i);
            if 4 <= end - i {
                return i;
            }
            i = end;
        }
        i
    }

    // The next rows of a column, from a row on, that are written as ops of one kind.
    pub(crate) fn next_piece(&self, from: usize) -> Piece
        requires { from < length self.now.new.now }
        ensures { NextPiece self.now.old.now self.now.new.now from result.kind result.rows }
    {
        let start = self.first_changed(from);
        if self.new.len() <= start {
            return Piece {
                kind: PieceKind::Rest,
                rows: start - from,
            };
        }
        if from < start {
            return Piece {
                kind: PieceKind::Skip,
                rows: start - from,
            };
        }
        let first = self.group_end(from);
        if 4 <= first - from {
            return Piece {
                kind: PieceKind::Same,
                rows: first - from,
            };
        }
        let end = self.uniq_end(from, first);
        Piece {
            kind: PieceKind::Uniq,
            rows: end - from,
        }
    }

    // How many bytes follow a column's op count byte: its ops, or the Uniqs over all rows where the ops would be too many.
    pub(crate) fn measure(&self) -> usize
        ensures { (length (column_bytes self.now.old.now self.now.new.now) ≡ 1 + result) × (result ≤ 3 * 1024) }
    {
        let mut row = 0;
        let mut ops = 0;
        let mut bytes = 0;
        // Kept: each turn goes on by the rows of its piece, so that no range says how often this loop turns.
        while row < self.new.len() {
            let piece = self.next_piece(row);
            let totals = piece.totals();
            ops += totals.ops;
            bytes += totals.bytes;
            row += piece.rows;
        }
        if ops <= 255 {
            return bytes;
        }
        self.new.len().div_ceil(127) + self.new.len()
    }
}
