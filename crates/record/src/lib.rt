// Step records: what a step on changed in the hidden picture and in the map, written so that a step back can put it back.
#![tactic(auto)]

ghost use Rattle.std.specs.Prelude.{◌≡◌, ◌+◌, ◌*◌, ◌<◌, ◌≤◌, ◌^◌, length, take, drop, leb};
ghost use Rattle.std.proofs.lemmas.List.Edits.{sets};
ghost use Rattle.laws.specs.Result.{pick};
ghost use Rattle.laws.specs.Put.{Put};
ghost use Rattle.number.specs.Number.{write_number};
ghost use Rattle.runs.specs.Runs.{runs_of};
ghost use Rattle.changes.specs.Count.{count};
ghost use Rattle.record.specs.RunList.{run_bytes, runs_bytes, list_bytes};
ghost use Rattle.colours.specs.Colours.{coloured};
ghost use Rattle.record.specs.Record.{picture_bytes, map_bytes, record_bytes, Commits, recorded_of};
ghost use Rattle.record.specs.Room.{map_room};
ghost use Rattle.record.specs.Walk.{Counted, Laid};

use changes::{Counts, count};
use colours::MAP;
use copies::{copy, copy_long};
use refusal::Refusal;
use runs::next_run;

// A record that was written: its length, and how many bytes of the picture changed.
#[derive(Clone, Copy, Debug, PartialEq, Eq)]
pub struct Recorded {
    pub length: usize,
    pub changed: usize,
}

// How many bytes a run is written in.
fn run_length(gap: usize, count: usize) -> usize
    requires { gap + count ≤ 8 * 1024 * 128 }
    ensures { (result ≡ length (write_number gap) + length (write_number count) + count) × (result ≤ 10 + count) }
{
    number::written_length(gap as u32) + number::written_length(count as u32) + count
}

// How many bytes the runs of two buffers of one length are written in.
fn measure(old: &[u8], new: &[u8]) -> usize
    requires { (length old.now ≡ length new.now) × (length old.now ≤ 8 * 1024 * 128) }
    ensures { result ≡ length (runs_bytes (runs_of old.now new.now)) }
{
    let mut at = 0;
    let mut bytes = 0;
    while let Some(run) = next_run(old, new, at) {
        bytes += run_length(run.gap, run.count);
        at += run.gap + run.count;
    }
    bytes
}

// Whether the runs of two pictures, which were counted, are written in at most room bytes. They are measured only if that is in doubt:
// a number takes at most one byte, and one more for each 128 that it says.
fn runs_fit(counts: Counts, old: &[u8], new: &[u8], room: usize) -> bool
    requires { (length old.now ≡ length new.now) × (length old.now ≤ 8 * 1024 * 128) × (counts ≡ count old.now new.now) }
    ensures { result ≡ leb (length (runs_bytes (runs_of old.now new.now))) room }
{
    if 2 * counts.runs + counts.changed + old.len() / 128 <= room {
        return true;
    }
    measure(old, new) <= room
}

// Writes a number at a place of out where it fits, and answers the place after it.
// Kept: out and a place here and below, since a struct that holds the buffer needs a clause that it stays the same reference.
fn put_number(out: &mut [u8], at: usize, n: u32) -> usize
    requires { at + length (write_number n) ≤ length out.old }
    ensures { Put out.old at (write_number n) out.new result }
{
    number::write(out, at, n).unwrap()
}

// Copies count bytes from a place of src to a place of dst, if they are wanted.
// Kept: beside `copies::copy_part`, which compares lengths: with it light steps took 6 to 10 % longer.
fn replace(dst: &mut [u8], to: usize, src: &[u8], from: usize, count: usize, wanted: bool)
    requires { (to + count ≤ length dst.old) × (from + count ≤ length src.now) }
    ensures { dst.new ≡ pick wanted (sets dst.old to (take count (drop from src.now))) dst.old }
{
    if !wanted {
        return;
    }
    let end = to + count;
    let stop = from + count;
    if count < 32 {
        copy(&mut dst[to..end], &src[from..stop]);
        return;
    }
    copy_long(&mut dst[to..end], &src[from..stop]);
}

// Writes a run, whose bytes stand at a place of the old buffer, at a place of out where it fits, and answers the place after it.
fn put_run(out: &mut [u8], at: usize, gap: usize, old: &[u8], start: usize, count: usize) -> usize
    requires { (gap < 2 ^ 32) × (count < 2 ^ 32) × (start + count ≤ length old.now)
        × (at + (length (write_number gap) + length (write_number count) + count) ≤ length out.old) }
    ensures { Put out.old at (run_bytes (record { gap = gap; bytes = take count (drop start old.now) })) out.new result }
{
    let count_at = put_number(out, at, gap as u32);
    let bytes_at = put_number(out, count_at, count as u32);
    replace(out, bytes_at, old, start, count, true);
    bytes_at + count
}

// Writes the runs of two buffers at a place of out where they fit, and answers the place after them. If commit is true, each run's new
// bytes are put into the old buffer.
fn put_runs(out: &mut [u8], from: usize, old: &mut [u8], new: &[u8], commit: bool) -> usize
    requires { (length old.old ≡ length new.now) × (length old.old ≤ 8 * 1024 * 128)
        × (from + length (runs_bytes (runs_of old.old new.now)) ≤ length out.old) }
    ensures { Put out.old from (runs_bytes (runs_of old.old new.now)) out.new result
        × (old.new ≡ pick commit new.now old.old) }
{
    let mut at = 0;
    let mut place = from;
    while let Some(run) = next_run(old, new, at) {
        let start = at + run.gap;
        let end = start + run.count;
        place = put_run(out, place, run.gap, old, start, run.count);
        replace(old, start, new, start, run.count, commit);
        at = end;
    }
    place
}

// Writes the run list of two buffers, whose runs were counted, at a place of out where it fits.
// Kept: the old and the new buffer as parameters here and below, since a struct of them needs a clause that the old one stays the same.
fn put_list(
    out: &mut [u8],
    at: usize,
    runs: usize,
    old: &mut [u8],
    new: &[u8],
    commit: bool,
) -> usize
    requires { Counted old.old new.now runs × (at + length (list_bytes (runs_of old.old new.now)) ≤ length out.old) }
    ensures { Put out.old at (list_bytes (runs_of old.old new.now)) out.new result
        × (old.new ≡ pick commit new.now old.old) }
{
    let first = put_number(out, at, runs as u32);
    put_runs(out, first, old, new, commit)
}

// Writes the picture part of a record into out where it fits.
fn put_picture(
    out: &mut [u8],
    frame: u32,
    place: u32,
    runs: usize,
    old: &mut [u8],
    new: &[u8],
    commit: bool,
) -> usize
    requires { Counted old.old new.now runs × (length (picture_bytes frame place old.old new.now) ≤ length out.old) }
    ensures { Put out.old 0 (picture_bytes frame place old.old new.now) out.new result
        × (old.new ≡ pick commit new.now old.old) }
{
    let place_at = put_number(out, 0, frame);
    let list = put_number(out, place_at, place);
    put_list(out, list, runs, old, new, commit)
}

// How many bytes the map part of a record is written in, for a map and a CMAP that is laid over it.
fn map_length(map: &[u8], cmap: &[u8]) -> usize
    requires { Laid map.now cmap.now }
    ensures { (result ≡ length (map_bytes map.now (coloured map.now cmap.now))) × (result ≤ map_room) }
{
    let k = cmap.len();
    let part = &map[..k];
    let counts = count(part, cmap);
    number::written_length(counts.runs as u32) + measure(part, cmap)
}

// Writes the map part of a record at a place of out where it fits, and lays the CMAP over the map.
fn put_map(out: &mut [u8], at: usize, map: &mut [u8], cmap: &[u8]) -> usize
    requires { Laid map.old cmap.now × (at + length (map_bytes map.old (coloured map.old cmap.now)) ≤ length out.old) }
    ensures { Put out.old at (map_bytes map.old (coloured map.old cmap.now)) out.new result
        × (map.new ≡ coloured map.old cmap.now) }
{
    let k = cmap.len();
    let counts = count(&map[..k], cmap);
    put_list(out, at, counts.runs, &mut map[..k], cmap, true)
}

// Writes a record into out where it fits, makes the old picture the new one, and lays the CMAP over the map.
fn put_record(
    out: &mut [u8],
    frame: u32,
    place: u32,
    counts: Counts,
    old: &mut [u8],
    new: &[u8],
    map: &mut [u8],
    cmap: &[u8],
) -> usize
    requires { Counted old.old new.now counts.runs × Laid map.old cmap.now
        × (length (record_bytes frame place old.old new.now map.old (coloured map.old cmap.now)) ≤ length out.old) }
    ensures { Put out.old 0 (record_bytes frame place old.old new.now map.old
        (coloured map.old cmap.now)) out.new result
        × (old.new ≡ new.now) × (map.new ≡ coloured map.old cmap.now) }
{
    // Few changes go to the hidden picture run by run, more of them all at once.
    let few = counts.changed < old.len() / 8;
    let at = put_picture(out, frame, place, counts.runs, old, new, few);
    let all = old.len();
    replace(old, 0, new, 0, all, !few);
    put_map(out, at, map, cmap)
}

// Records a step: writes the frame number reached, the next place before it, and the runs of the hidden picture and of the map before and
// after, makes the hidden picture the new one, and lays the CMAP over the map. A refusal leaves all as they are.
pub fn commit(
    out: &mut [u8],
    frame: u32,
    place: u32,
    old: &mut [u8],
    new: &[u8],
    map: &mut [u8],
    cmap: &[u8],
) -> Result<Recorded, Refusal>
    ensures { Commits out.old frame place old.old new.now map.old cmap.now (recorded_of result)
        out.new old.new map.new }
{
    if old.len() != new.len() {
        return Err(Refusal::BufferLength);
    }
    if 1048576 < old.len() {
        return Err(Refusal::BufferLength);
    }
    if map.len() != MAP {
        return Err(Refusal::BufferLength);
    }
    let laid = buffer::part(cmap, 0, MAP);
    let counts = count(old, new);
    let head = number::written_length(frame)
        + number::written_length(place)
        + number::written_length(counts.runs as u32)
        + map_length(map, laid);
    if out.len() < head {
        return Err(Refusal::NoRoom);
    }
    if !runs_fit(counts, old, new, out.len() - head) {
        return Err(Refusal::NoRoom);
    }
    let length = put_record(out, frame, place, counts, old, new, map, laid);
    Ok(Recorded {
        length,
        changed: counts.changed,
    })
}
