// Two frames of one size, and the list of one of their planes: its columns, copied out of the frames, measured and written.
ghost use Rattle.std.specs.Prelude.{◌≡◌, ℕ, ◌+◌, ◌*◌, ◌<◌, ◌≤◌, length, take, drop};
ghost use Rattle.laws.specs.Put.{Put};
ghost use Rattle.writer.specs.Planes.{Frames, InFrame};
ghost use Rattle.writer.specs.Write.{column_at, column_in, columns_bytes, planes_equal, plane_bytes};

// The old and the new frame: so many planes, each of height rows of row bytes.
#[derive(Clone, Copy)]
pub(crate) struct Pair<'a> {
    pub(crate) old: &'a [u8],
    pub(crate) new: &'a [u8],
    pub(crate) row: usize,
    pub(crate) height: usize,
    pub(crate) planes: usize,
    ghost frames: { Frames old.now new.now row height planes },
}

// Copies the column of a frame that starts at a place to the front of an array: its rows lie row bytes apart.
fn copy_column(column: &mut [u8; 1024], frame: &[u8], row: usize, height: usize, at: usize)
    requires { (height ≤ 1024) × ((i : ℕ) → i < height → at + i * row < length frame.now) }
    ensures { take height column.new ≡ column_at frame.now row at height }
{
    for i in 0..height {
        column[i] = frame[at + i * row];
    }
}

impl Pair<'_> {
    // How many bytes a plane has.
    pub(crate) fn plane_size(&self) -> usize
        ensures { result ≡ self.now.height * self.now.row }
    {
        self.height * self.row
    }

    // How many bytes the column is written in that starts at a place of the frames.
    fn column_length(&self, at: usize) -> usize
        requires { InFrame self.now.old.now self.now.new.now self.now.row self.now.height at }
        ensures { (result ≡ length (column_in self.now.old.now self.now.new.now self.now.row self.now.height at)) × (result ≤ 1 + 3 * 1024) }
    {
        let mut was = [0; 1024];
        let mut is = [0; 1024];
        copy_column(&mut was, self.old, self.row, self.height, at);
        copy_column(&mut is, self.new, self.row, self.height, at);
        column_writer::column_length(&was[..self.height], &is[..self.height]).unwrap()
    }

    // Writes the column that starts at a place of the frames.
    // Kept: both columns are copied here and above, since arrays that a function hands back by value took a fifth longer.
    fn write_column(&self, out: &mut [u8], place: usize, at: usize) -> usize
        requires { InFrame self.now.old.now self.now.new.now self.now.row self.now.height at
            × (place + length (column_in self.now.old.now self.now.new.now self.now.row self.now.height at) ≤ length out.old) }
        ensures { Put out.old place (column_in self.now.old.now self.now.new.now self.now.row self.now.height at) out.new result }
    {
        let mut was = [0; 1024];
        let mut is = [0; 1024];
        copy_column(&mut was, self.old, self.row, self.height, at);
        copy_column(&mut is, self.new, self.row, self.height, at);
        column_writer::write(out, place, &was[..self.height], &is[..self.height]).unwrap()
    }

    // Kept: a plane's place and no slice of it here and below, since plane_bytes, of which roundtrip's theorems speak, is of whole frames.
    // How many bytes the columns of a plane are written in.
    fn columns_length(&self, at: usize) -> usize
        requires { at + self.now.height * self.now.row ≤ length self.now.new.now }
        ensures { (result ≡ length (columns_bytes self.now.old.now self.now.new.now self.now.row self.now.height self.now.row at))
            × (result ≤ (1 + 3 * 1024) * self.now.row) }
    {
        let mut sum = 0;
        for column in 0..self.row {
            sum += self.column_length(at + column);
        }
        sum
    }

    // Writes the columns of a plane.
    fn write_columns(&self, out: &mut [u8], from: usize, at: usize) -> usize
        requires { (at + self.now.height * self.now.row ≤ length self.now.new.now)
            × (from + length (columns_bytes self.now.old.now self.now.new.now self.now.row self.now.height self.now.row at) ≤ length out.old) }
        ensures { Put out.old from (columns_bytes self.now.old.now self.now.new.now self.now.row self.now.height self.now.row at) out.new result }
    {
        let mut place = from;
        for column in 0..self.row {
            place = self.write_column(out, place, at + column);
        }
        place
    }

    // Whether the plane that starts at a place is unchanged.
    fn unchanged(&self, at: usize) -> bool
        requires { at + self.now.height * self.now.row ≤ length self.now.new.now }
        ensures { result ≡ planes_equal (take (self.now.height * self.now.row) (drop at self.now.old.now)) (take (self.now.height * self.now.row) (drop at self.now.new.now)) }
    {
        let end = at + self.plane_size();
        self.old[at..end] == self.new[at..end]
    }

    // How many bytes the list of a plane has.
    pub(crate) fn plane_length(&self, at: usize) -> usize
        requires { at + self.now.height * self.now.row ≤ length self.now.new.now }
        ensures { (result ≡ length (plane_bytes self.now.old.now self.now.new.now self.now.row self.now.height at)) × (result ≤ (1 + 3 * 1024) * 128) }
    {
        if self.unchanged(at) {
            return 0;
        }
        self.columns_length(at)
    }

    // Writes the list of a plane, if it has one, and answers the place after it.
    pub(crate) fn write_plane(&self, out: &mut [u8], place: usize, at: usize) -> usize
        requires { (at + self.now.height * self.now.row ≤ length self.now.new.now)
            × (place + length (plane_bytes self.now.old.now self.now.new.now self.now.row self.now.height at) ≤ length out.old) }
        ensures { Put out.old place (plane_bytes self.now.old.now self.now.new.now self.now.row self.now.height at) out.new result }
    {
        if self.unchanged(at) {
            return place;
        }
        self.write_columns(out, place, at)
    }
}
