// The listing of a file: what document 01 has the listing program write.
#![tactic(auto, unfolding(crate::specs::Listing::plan_for))]

ghost use Rattle.std.specs.Prelude.{◌&&◌, ◌≡◌, leb, length};
ghost use Rattle.lines.specs.Lines.{line_of};
ghost use Rattle.state.specs.After.{lent};
ghost use Rattle.step_on.specs.Step.{on_of};
ghost use Rattle.listing.specs.Listing.{step_line, taken, begun, list_frames, list_film, list_front, plan_for, plan_of, list_file, Lists, MeetsList, Holds};

use colours::MAP;
use lines::{Line, put_line};
use state::State;
use step_on::SteppedOn;

// The longest file that is listed.
pub const FILE: usize = 65536;

// The longest frame that is listed, and the length that A, B and the work buffer need.
pub const FRAME: usize = 16384;

// The length that the record buffer needs: every record of such a frame fits, with at most 2 * FRAME + 12 bytes, and 1,539 for the map.
pub const RECORD: usize = 65536;

// The line of a step on.
fn step_line(s: SteppedOn) -> Line
    ensures { line_of result ≡ step_line (on_of s.answer) s.state.frame }
{
    let state = s.state;
    match s.answer {
        Err(why) => Line::Refused(why),
        Ok(None) => Line::End(state.frame),
        Ok(Some(report)) => Line::Frame(state.frame, report),
    }
}

// Whether a step on was taken.
fn taken(s: SteppedOn) -> bool
    ensures { result ≡ taken (on_of s.answer) }
{
    matches!(s.answer, Ok(Some(_)))
}

// Lists an opened file: the picture's line, then a line for each step on until the end or a refusal.
// Kept: five lent buffers as parameters here and below, since a struct of them needs a clause for each that it stays the same reference.
fn list_frames(
    file: &[u8],
    start: State,
    a: &mut [u8],
    b: &mut [u8],
    map: &mut [u8],
    work: &mut [u8],
    rec: &mut [u8],
    out: &mut [u8],
) -> usize
    ensures { Lists (list_frames file.now (length work.old) (length rec.old)
        (begun (lent a.old b.old map.old start work.old rec.old)))
        out.old result
        (record { a = a.new; b = b.new; map = map.new; work = work.new; rec = rec.new }) out.new }
{
    let mut state = start;
    let sizes = start.sizes;
    let mut at = put_line(out, 0, Line::Picture(sizes));
    // Kept: the file says where its frames end, so that no range says how often this loop turns.
    loop {
        let s = step_on::step_on(file, state, a, b, map, work, rec);
        at = put_line(out, at, step_line(s));
        if !taken(s) {
            return at;
        }
        state = s.state;
    }
}

// Lists a file whose frames are as long as A, B and the work buffer.
fn list_film(
    file: &[u8],
    a: &mut [u8],
    b: &mut [u8],
    map: &mut [u8],
    work: &mut [u8],
    rec: &mut [u8],
    out: &mut [u8],
) -> usize
    ensures { Lists (list_film file.now
        (record { a = a.old; b = b.old; map = map.old; work = work.old; rec = rec.old }))
        out.old result
        (record { a = a.new; b = b.new; map = map.new; work = work.new; rec = rec.new }) out.new }
{
    let o = opening::open(file, a, b, map);
    match o.answer {
        Err(why) => put_line(out, 0, Line::Refused(why)),
        Ok(()) => list_frames(file, o.state, a, b, map, work, rec, out),
    }
}

// Lists a file whose frames have n bytes, with the front parts of the buffers.
fn list_front(
    file: &[u8],
    n: usize,
    a: &mut [u8],
    b: &mut [u8],
    map: &mut [u8],
    work: &mut [u8],
    rec: &mut [u8],
    out: &mut [u8],
) -> usize
    requires { Holds n (length a.old) (length b.old) (length map.old) (length work.old) (length rec.old) }
    ensures { Lists (list_front file.now n
        (record { a = a.old; b = b.old; map = map.old; work = work.old; rec = rec.old }))
        out.old result
        (record { a = a.new; b = b.new; map = map.new; work = work.new; rec = rec.new }) out.new }
{
    list_film(
        file,
        &mut a[..n],
        &mut b[..n],
        &mut map[..MAP],
        &mut work[..n],
        &mut rec[..RECORD],
        out,
    )
}

// How a file is listed, by its length and its frames' length: frame by frame with frames of so many bytes, or by one line.
fn plan_for(file: &[u8]) -> Result<usize, Line>
    ensures { plan_of result ≡ plan_for file.now }
{
    if FILE < file.len() {
        return Err(Line::TooLarge);
    }
    let n = opening::frame_size(file).map_err(|why| Line::Refused(why))?;
    if FRAME < n {
        return Err(Line::TooLarge);
    }
    Ok(n)
}

// Lists a file with buffers that are long enough.
fn list_file(
    file: &[u8],
    a: &mut [u8],
    b: &mut [u8],
    map: &mut [u8],
    work: &mut [u8],
    rec: &mut [u8],
    out: &mut [u8],
) -> usize
    requires { Holds 16384 (length a.old) (length b.old) (length map.old) (length work.old) (length rec.old) }
    ensures { Lists (list_file file.now
        (record { a = a.old; b = b.old; map = map.old; work = work.old; rec = rec.old }))
        out.old result
        (record { a = a.new; b = b.new; map = map.new; work = work.new; rec = rec.new }) out.new }
{
    match plan_for(file) {
        Err(line) => put_line(out, 0, line),
        Ok(n) => list_front(file, n, a, b, map, work, rec, out),
    }
}

// Whether buffers of these lengths are long enough for every file.
fn long_enough(a: usize, b: usize, map: usize, work: usize, rec: usize) -> bool
    ensures { result ≡ (leb 16384 a && leb 16384 b && leb 768 map && leb 16384 work && leb 65536 rec) }
{
    FRAME <= a && FRAME <= b && MAP <= map && FRAME <= work && RECORD <= rec
}

// Lists a file: its text goes to the front of `out`, as far as that goes, and the answer is the number of bytes written.
// A, B and the work buffer need FRAME bytes each, the map colours::MAP bytes and the record buffer RECORD bytes; with less nothing is listed.
pub fn list(
    file: &[u8],
    a: &mut [u8],
    b: &mut [u8],
    map: &mut [u8],
    work: &mut [u8],
    rec: &mut [u8],
    out: &mut [u8],
) -> usize
    ensures { MeetsList file.now
        (record { a = a.old; b = b.old; map = map.old; work = work.old; rec = rec.old })
        out.old result
        (record { a = a.new; b = b.new; map = map.new; work = work.new; rec = rec.new }) out.new }
{
    if !long_enough(a.len(), b.len(), map.len(), work.len(), rec.len()) {
        return 0;
    }
    list_file(file, a, b, map, work, rec, out)
}
