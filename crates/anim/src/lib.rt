// The C interface: each function calls one of the library's, on numbers and byte slices. The order of arguments is one: numbers,
// the file, the state, A, B and the map, the work buffer, the record or the output, the report or the length.
#![tactic(auto)]

ghost use Rattle.std.specs.Prelude.{◌≡◌, ◌&&◌, eqb, length};
ghost use Rattle.refusal.specs.Number.{result_of};
ghost use Rattle.anim.specs.Export.{OpensC, HandsOn, StepsOnC, StepsBackC, row_c, number_or, place_or, sizes_in, WritesC, SizesC};

use refusal::Refusal;
use state::Sizes;
use step_on::SteppedOn;

// The refusal number for a slice of a wrong length.
fn wrong_length() -> u64
    ensures { result ≡ 11 }
{
    Refusal::OutsideLimits.number()
}

// Whether the slices for a state and a report have their lengths.
fn lengths_ok(state: usize, report: usize) -> bool
    ensures { result ≡ (eqb state 48 && eqb report 40) }
{
    state == 48 && report == 40
}

// Kept: a slice for each buffer and numbers for answers, here and below, as the C interface has them.
// Asks how long A and B must be for a file.
pub fn anim_frame_size(file: &[u8], size: &mut [u8]) -> u64
    ensures { SizesC file.now size.old result size.new }
{
    if size.len() != 8 {
        return wrong_length();
    }
    match opening::frame_size(file) {
        Err(why) => why.number(),
        Ok(n) => {
            write_words::write_number(size, n);
            0
        }
    }
}

// Opens a file: state gets the state after its first picture, A and B that picture, and the map its colours.
pub fn anim_open(file: &[u8], state: &mut [u8], a: &mut [u8], b: &mut [u8], map: &mut [u8]) -> u64
    ensures { OpensC file.now (record { state = state.old; a = a.old; b = b.old; map = map.old }) result
        (record { state = state.new; a = a.new; b = b.new; map = map.new }) }
{
    if state.len() != 48 {
        return wrong_length();
    }
    let o = opening::open(file, a, b, map);
    write_words::write_state(state, o.state);
    match o.answer {
        Err(why) => why.number(),
        Ok(()) => 0,
    }
}

// Hands a step on over to C: its answer as a number, and the state and the report in their slices where it is taken.
fn hand_on(s: SteppedOn, state: &mut [u8], report: &mut [u8]) -> u64
    ensures { HandsOn s state.old report.old result state.new report.new }
{
    match s.answer {
        Err(why) => why.number(),
        Ok(None) => 1,
        Ok(Some(taken)) => {
            write_words::write_state(state, s.state);
            write_words::write_report(report, taken);
            0
        }
    }
}

// Steps on from the state in its slice.
pub fn anim_step_on(
    file: &[u8],
    state: &mut [u8],
    a: &mut [u8],
    b: &mut [u8],
    map: &mut [u8],
    work: &mut [u8],
    rec: &mut [u8],
    report: &mut [u8],
) -> u64
    ensures { StepsOnC file.now
        (record {
          world = record { state = state.old; a = a.old; b = b.old; map = map.old };
          work = work.old;
          rec = rec.old;
          report = report.old;
        }) result
        (record {
          world = record { state = state.new; a = a.new; b = b.new; map = map.new };
          work = work.new;
          rec = rec.new;
          report = report.new;
        }) }
{
    if !lengths_ok(state.len(), report.len()) {
        return wrong_length();
    }
    let s = step_on::step_on(file, words::read_state(state), a, b, map, work, rec);
    hand_on(s, state, report)
}

// Steps back from the state in its slice with a record.
pub fn anim_step_back(
    state: &mut [u8],
    a: &mut [u8],
    b: &mut [u8],
    map: &mut [u8],
    rec: &[u8],
) -> u64
    ensures { StepsBackC (record { state = state.old; a = a.old; b = b.old; map = map.old }) rec.now result
        (record { state = state.new; a = a.new; b = b.new; map = map.new }) }
{
    if state.len() != 48 {
        return wrong_length();
    }
    let s = step_back::step_back(words::read_state(state), a, b, map, rec);
    match s.answer {
        Err(why) => why.number(),
        Ok(()) => {
            write_words::write_state(state, s.state);
            0
        }
    }
}

// Where a row of a plane stands, by the state in its slice.
fn row_in(plane: u64, row: u64, state: &[u8], a: &[u8], b: &[u8]) -> Result<usize, Refusal>
    ensures { result_of result ≡ row_c plane row state.now (length a.now) (length b.now) }
{
    if state.len() != 48 {
        return Err(Refusal::OutsideLimits);
    }
    shown::row_place(words::read_state(state), a, b, plane as usize, row as usize)
}

// The place of a row of a plane in A or B, 0 if it is refused.
pub fn anim_row_place(plane: u64, row: u64, state: &[u8], a: &[u8], b: &[u8]) -> u64
    ensures { result ≡ place_or (row_c plane row state.now (length a.now) (length b.now)) }
{
    match row_in(plane, row, state, a, b) {
        Err(_) => 0,
        Ok(at) => at as u64,
    }
}

// The number of the refusal of such a row, 0 if it isn't refused.
pub fn anim_row_refusal(plane: u64, row: u64, state: &[u8], a: &[u8], b: &[u8]) -> u64
    ensures { result ≡ number_or (row_c plane row state.now (length a.now) (length b.now)) }
{
    match row_in(plane, row, state, a, b) {
        Err(why) => why.number(),
        Ok(_) => 0,
    }
}

// Writes the delta that turns the old frame into the new one, and its length.
pub fn anim_write_delta(
    width: u64,
    height: u64,
    planes: u64,
    old: &[u8],
    new: &[u8],
    out: &mut [u8],
    len: &mut [u8],
) -> u64
    ensures { WritesC (sizes_in width height planes) old.now new.now (record { out = out.old; len = len.old }) result
        (record { out = out.new; len = len.new }) }
{
    if len.len() != 8 {
        return wrong_length();
    }
    let sizes = Sizes {
        width: width as usize,
        height: height as usize,
        planes: planes as usize,
    };
    match writer::write(out, old, new, sizes) {
        Err(why) => why.number(),
        Ok(n) => {
            write_words::write_number(len, n);
            0
        }
    }
}
