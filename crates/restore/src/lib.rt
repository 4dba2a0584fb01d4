// Step records put back: read, checked whole, then restored into the shown picture and the map, all or nothing.
#![tactic(auto)]

ghost use Rattle.std.specs.Prelude.{◌≡◌, ◌+◌, ◌≤◌, length, take, drop};
ghost use Rattle.refusal.specs.Number.{result_of};
ghost use Rattle.runs.specs.Runs.{differ};
ghost use Rattle.record.specs.RunList.{read_runs, read_list};
ghost use Rattle.restore.specs.Restored.{Restores};
ghost use Rattle.restore.specs.Walk.{RunAt, RunTaken, Took, ListsAt, HeaderAt, belongs, LeadsBack};

use copies::copy_part;
use refusal::Refusal;

// A run of a record: the unchanged bytes before it, its length, and where its old bytes stand.
// Kept: a place and a length and no slice, since the record is read on from the place after them.
#[derive(Clone, Copy)]
struct Stored {
    gap: usize,
    count: usize,
    start: usize,
}

// The run at a place of a record, with room bytes of the buffer left and a gap of at least so many bytes.
fn read_run(bytes: &[u8], at: usize, least: usize, room: usize) -> Option<Stored>
    ensures { RunAt bytes.now at least room result }
{
    let gap = number::read(bytes, at)?;
    if gap.value < least {
        return None;
    }
    let count = number::read(bytes, gap.next)?;
    if count.value == 0 {
        return None;
    }
    if room < gap.value + count.value {
        return None;
    }
    if bytes.len() - count.next < count.value {
        return None;
    }
    Some(Stored {
        gap: gap.value,
        count: count.value,
        start: count.next,
    })
}

// Whether each of the old bytes of a run differs from the one that it replaces. There is no early exit, so that they are compared all at once.
fn differs(bytes: &[u8], start: usize, shown: &[u8], to: usize, count: usize) -> bool
    requires { (start + count ≤ length bytes.now) × (to + count ≤ length shown.now) }
    ensures { result ≡ differ (take count (drop start bytes.now)) (drop to shown.now) }
{
    let mut all = true;
    for i in 0..count {
        if bytes[start + i] == shown[to + i] {
            all = false;
        }
    }
    all
}

// Takes the bytes of a run: puts them back, or answers whether each differs from the one that it replaces.
// Kept: a flag and places here and below, since a walk that is handed a closure, with what its clause has to ask of it, is longer.
fn take_run(
    shown: &mut [u8],
    to: usize,
    bytes: &[u8],
    start: usize,
    count: usize,
    putting: bool,
) -> bool
    requires { (start + count ≤ length bytes.now) × (to + count ≤ length shown.old) }
    ensures { RunTaken shown.old to (take count (drop start bytes.now)) putting shown.new result }
{
    if putting {
        copy_part(shown, to, bytes, start, count, true);
        return true;
    }
    differs(bytes, start, shown, to, count)
}

// Takes so many runs from a place of a record on: puts them back into a buffer, or only checks them against it. Answers the place after them.
fn take_runs(
    shown: &mut [u8],
    bytes: &[u8],
    from: usize,
    count: usize,
    putting: bool,
) -> Option<usize>
    ensures { Took shown.old bytes.now (read_runs count 0 (length shown.old) (drop from bytes.now)) putting
        shown.new result }
{
    let mut at = from;
    let mut place = 0;
    let mut least = 0;
    for _ in 0..count {
        let run = read_run(bytes, at, least, shown.len() - place)?;
        let to = place + run.gap;
        if !take_run(shown, to, bytes, run.start, run.count, putting) {
            return None;
        }
        place = to + run.count;
        at = run.start + run.count;
        least = 1;
    }
    Some(at)
}

// Takes the run list at a place of a record, and answers the place after it.
fn take_list(shown: &mut [u8], bytes: &[u8], at: usize, putting: bool) -> Option<usize>
    ensures { Took shown.old bytes.now (read_list (length shown.old) (drop at bytes.now)) putting
        shown.new result }
{
    let runs = number::read(bytes, at)?;
    take_runs(shown, bytes, runs.next, runs.value, putting)
}

// What stands before a record's run lists: two numbers, and the place of the first list.
#[derive(Clone, Copy)]
struct Header {
    frame: usize,
    place: usize,
    list: usize,
}

// The frame number and the place at the front of a record.
fn read_header(bytes: &[u8]) -> Option<Header>
    ensures { HeaderAt bytes.now result }
{
    let frame = number::read(bytes, 0)?;
    let place = number::read(bytes, frame.next)?;
    Some(Header {
        frame: frame.value,
        place: place.value,
        list: place.next,
    })
}

// Checks the two run lists at a place of a record against the shown picture and the map, which stay as they are, and that nothing is left
// over. Answers the place of the second.
fn check_lists(bytes: &[u8], shown: &mut [u8], map: &mut [u8], list: usize) -> Option<usize>
    ensures { ListsAt bytes.now list shown.old map.old result × (shown.new ≡ shown.old)
        × (map.new ≡ map.old) }
{
    let map_list = take_list(shown, bytes, list, false)?;
    let end = take_list(map, bytes, map_list, false)?;
    if end < bytes.len() {
        return None;
    }
    Some(map_list)
}

// Whether a record belongs to a state: its frame is the state's and not the first, its place is from 12 on and before the next place.
fn belongs(reached: usize, place: usize, frame: usize, next: usize) -> bool
    ensures { result ≡ belongs reached place frame next }
{
    2 <= reached && reached == frame && 12 <= place && place < next
}

// A record that leads back from a state: the next place before its step, and where its two run lists stand.
#[derive(Clone, Copy)]
struct Leads {
    place: usize,
    list: usize,
    map_list: usize,
}

// Checks a whole record against the shown picture and the map, which stay as they are, and then that it belongs to the state.
fn leads_back(
    bytes: &[u8],
    shown: &mut [u8],
    map: &mut [u8],
    frame: usize,
    next: usize,
) -> Result<Leads, Refusal>
    ensures { LeadsBack bytes.now shown.old map.old frame next result × (shown.new ≡ shown.old)
        × (map.new ≡ map.old) }
{
    let Some(header) = read_header(bytes) else {
        return Err(Refusal::BadRecord);
    };
    let Some(map_list) = check_lists(bytes, shown, map, header.list) else {
        return Err(Refusal::BadRecord);
    };
    if !belongs(header.frame, header.place, frame, next) {
        return Err(Refusal::OtherRecord);
    }
    Ok(Leads {
        place: header.place,
        list: header.list,
        map_list,
    })
}

// Puts a record back into the shown picture and the map, at a frame number and a next place, all or nothing. Answers the next place before
// its step.
pub fn restore(
    bytes: &[u8],
    shown: &mut [u8],
    map: &mut [u8],
    frame: usize,
    next: usize,
) -> Result<usize, Refusal>
    ensures { Restores bytes.now shown.old map.old frame next (result_of result) shown.new map.new }
{
    let lists = leads_back(bytes, shown, map, frame, next)?;
    take_list(shown, bytes, lists.list, true);
    take_list(map, bytes, lists.map_list, true);
    Ok(lists.place)
}
