// Stepping on: what lies ahead is looked for and built, then recorded and shown.
#![tactic(auto, unfolding(crate::specs::Step::ready))]

ghost use Rattle.std.specs.Prelude.{◌≡◌, length, take};
ghost use Rattle.state.specs.After.{lent};
ghost use Rattle.colours.specs.Colours.{MAP};
ghost use Rattle.record.specs.Record.{recorded_of};
ghost use Rattle.refusal.specs.Number.{result_of};
ghost use Rattle.delta.specs.Delta.{Applies};
ghost use Rattle.step_on.specs.Step.{ready, basis, look, look_ahead, commit, Looks, LeavesOn, MeetsOn};
ghost use Rattle.step_on.specs.Parts.{Fits, CommitsHidden};

use anhd::FrameHeader;
use iff::Part;
use record::Recorded;
use refusal::Refusal;
use state::{Report, Sizes, State};

// A frame that lies ahead and stands in the work buffer: the place past it, its header, the number of its ops, and where the contents of
// its CMAP stand in FORM ANIM.
// Kept: a place and no slice, since the caller is told where the contents stand, and need not keep the file lent to use the answer.
#[derive(Clone, Copy, Debug, PartialEq, Eq)]
pub struct Ahead {
    pub next: usize,
    pub header: FrameHeader,
    pub ops: usize,
    pub cmap: Part,
}

// What stepping on answers, a report or none at the end, and the state after it.
// Kept: a state beside the answer, for `MeetsOn` says of a refusal, too, which state there is.
#[derive(Clone, Copy, Debug, PartialEq, Eq)]
pub struct SteppedOn {
    pub answer: Result<Option<Report>, Refusal>,
    pub state: State,
}

// The tests of a step on, by the lengths of the file, A, B, the map and the work buffer.
// Kept: the state and five lengths as parameters, since the definition ready is asked for by these.
fn ready(
    file: usize,
    state: State,
    a: usize,
    b: usize,
    map: usize,
    work: usize,
) -> Result<(), Refusal>
    ensures { result_of result ≡ ready file state a b map work }
{
    if file < state.end {
        return Err(Refusal::OutsideLimits);
    }
    let n = state.step_length(a, b, map)?;
    if work != n {
        return Err(Refusal::BufferLength);
    }
    if State::MAX_FRAME <= state.frame {
        return Err(Refusal::LastFrame);
    }
    Ok(())
}

// Builds a frame in the work buffer from the picture that its interleave names.
// Kept: the lent buffers as parameters here and below, since a struct of them needs a clause for each that it stays the same reference.
fn apply_frame(
    header: FrameHeader,
    dlta: &[u8],
    sizes: Sizes,
    shown: &[u8],
    hidden: &[u8],
    work: &mut [u8],
) -> Result<usize, Refusal>
    ensures { Applies work.old (basis header shown.now hidden.now) dlta.now sizes
        header.items (result_of result) work.new }
{
    let items = header.items;
    if header.interleave == 1 {
        return delta::apply(work, shown, dlta, sizes, items);
    }
    delta::apply(work, hidden, dlta, sizes, items)
}

// Finds the next frame of FORM ANIM and builds it in the work buffer.
fn look(
    anim: &[u8],
    state: State,
    shown: &[u8],
    hidden: &[u8],
    work: &mut [u8],
) -> Result<Option<Ahead>, Refusal>
    requires { Fits state (length shown.now) (length work.old) × Fits state (length hidden.now) (length work.old) }
    ensures { Looks anim.now (look anim.now state shown.now hidden.now) work.old result
        work.new }
{
    let sizes = state.sizes;
    let Some(x) = frame::frame_at(anim, state.next, sizes.row_bytes())? else {
        return Ok(None);
    };
    let dlta = buffer::part(anim, x.dlta.start, x.dlta.len);
    let ops = apply_frame(x.header, dlta, sizes, shown, hidden, work)?;
    Ok(Some(Ahead {
        next: x.next,
        header: x.header,
        ops,
        cmap: x.cmap,
    }))
}

// Looks ahead: the next frame is found, checked and built in the work buffer.
pub fn look_ahead(
    file: &[u8],
    state: State,
    a: &[u8],
    b: &[u8],
    map: &[u8],
    work: &mut [u8],
) -> Result<Option<Ahead>, Refusal>
    ensures { Looks (take state.end file.now)
        (look_ahead file.now (record { a = a.now; b = b.now; map = map.now; state = state }) (length work.old))
        work.old result work.new }
{
    ready(file.len(), state, a.len(), b.len(), map.len(), work.len())?;
    let anim = buffer::part(file, 0, state.end);
    if state.shows_a() {
        return look(anim, state, a, b, work);
    }
    look(anim, state, b, a, work)
}

// Kept: two calls here and in look_ahead, since with one all of a step is one function and light steps took 4 to 6 % longer.
// Records a frame and puts it into the hidden buffer, B at an odd frame and A at an even one, and its colours into the map, unless the
// record doesn't fit.
fn commit_hidden(
    state: State,
    cmap: &[u8],
    a: &mut [u8],
    b: &mut [u8],
    map: &mut [u8],
    work: &[u8],
    rec: &mut [u8],
) -> Result<Recorded, Refusal>
    requires { Fits state (length a.old) (length work.now) }
    ensures { CommitsHidden (record { a = a.old; b = b.old; map = map.old; state = state })
        work.now cmap.now rec.old (recorded_of result) a.new b.new map.new rec.new }
{
    let frame = (state.frame + 1) as u32;
    let place = state.next as u32;
    if state.shows_a() {
        return record::commit(rec, frame, place, b, work, map, cmap);
    }
    record::commit(rec, frame, place, a, work, map, cmap)
}

// Steps to the frame in the work buffer, whose CMAP has the contents cmap: it is recorded and shown.
fn commit(
    state: State,
    x: Ahead,
    cmap: &[u8],
    a: &mut [u8],
    b: &mut [u8],
    map: &mut [u8],
    work: &[u8],
    rec: &mut [u8],
) -> SteppedOn
    requires { Fits state (length a.old) (length work.now) × Fits state (length b.old) (length work.now) × (length map.old ≡ MAP) }
    ensures { LeavesOn
        (commit (record { a = a.old; b = b.old; map = map.old; state = state }) (length rec.old)
        (record { picture = work.now; next = x.next; header = x.header; ops = x.ops; cmap = cmap.now }))
        (lent a.old b.old map.old state work.now rec.old) result
        (lent a.new b.new map.new result.state work.now rec.new) }
{
    match commit_hidden(state, cmap, a, b, map, work, rec) {
        Err(why) => SteppedOn {
            answer: Err(why),
            state,
        },
        Ok(recorded) => SteppedOn {
            answer: Ok(Some(Report {
                method: x.header.method,
                time: x.header.time,
                changed: recorded.changed,
                record_length: recorded.length,
                ops: x.ops,
            })),
            state: state.moved(state.frame + 1, x.next),
        },
    }
}

// Steps on: the next frame is built, recorded and shown.
pub fn step_on(
    file: &[u8],
    state: State,
    a: &mut [u8],
    b: &mut [u8],
    map: &mut [u8],
    work: &mut [u8],
    rec: &mut [u8],
) -> SteppedOn
    ensures { MeetsOn file.now (lent a.old b.old map.old state work.old rec.old) result
        (lent a.new b.new map.new result.state work.new rec.new) }
{
    match look_ahead(file, state, a, b, map, work) {
        Err(why) => SteppedOn {
            answer: Err(why),
            state,
        },
        Ok(None) => SteppedOn {
            answer: Ok(None),
            state,
        },
        Ok(Some(x)) => {
            let anim = buffer::part(file, 0, state.end);
            let cmap = buffer::part(anim, x.cmap.start, x.cmap.len);
            commit(state, x, cmap, a, b, map, work, rec)
        }
    }
}
