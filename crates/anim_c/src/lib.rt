// The C interface: each function is that of the crate anim, under its name.
#![tactic(auto)]

ghost use Rattle.std.specs.Prelude.{◌≡◌, length};
ghost use Rattle.anim.specs.Export.{OpensC, StepsOnC, StepsBackC, row_c, number_or, place_or, sizes_in, WritesC, SizesC};

// Kept: a function beside each of anim's, since the C interface needs exported functions, and a crate is a library or a static library.
// Asks how long A and B must be for a file.
#[unsafe(no_mangle)]
pub extern "C" fn anim_frame_size(file: &[u8], size: &mut [u8]) -> u64
    ensures { SizesC file.now size.old result size.new }
{
    anim::anim_frame_size(file, size)
}

// Opens a file: state gets the state after its first picture, A and B that picture, and the map its colours.
#[unsafe(no_mangle)]
pub extern "C" fn anim_open(
    file: &[u8],
    state: &mut [u8],
    a: &mut [u8],
    b: &mut [u8],
    map: &mut [u8],
) -> u64
    ensures { OpensC file.now (record { state = state.old; a = a.old; b = b.old; map = map.old }) result
        (record { state = state.new; a = a.new; b = b.new; map = map.new }) }
{
    anim::anim_open(file, state, a, b, map)
}

// Steps on from the state in its slice.
#[unsafe(no_mangle)]
pub extern "C" fn anim_step_on(
    file: &[u8],
    state: &mut [u8],
    a: &mut [u8],
    b: &mut [u8],
    map: &mut [u8],
    work: &mut [u8],
    rec: &mut [u8],
    report: &mut [u8],
) -> u64
    ensures { StepsOnC file.now
        (record {
          world = record { state = state.old; a = a.old; b = b.old; map = map.old };
          work = work.old;
          rec = rec.old;
          report = report.old;
        }) result
        (record {
          world = record { state = state.new; a = a.new; b = b.new; map = map.new };
          work = work.new;
          rec = rec.new;
          report = report.new;
        }) }
{
    anim::anim_step_on(file, state, a, b, map, work, rec, report)
}

// Steps back from the state in its slice with a record.
#[unsafe(no_mangle)]
pub extern "C" fn anim_step_back(
    state: &mut [u8],
    a: &mut [u8],
    b: &mut [u8],
    map: &mut [u8],
    rec: &[u8],
) -> u64
    ensures { StepsBackC (record { state = state.old; a = a.old; b = b.old; map = map.old }) rec.now result
        (record { state = state.new; a = a.new; b = b.new; map = map.new }) }
{
    anim::anim_step_back(state, a, b, map, rec)
}

// The place of a row of a plane in A or B, 0 if it is refused.
#[unsafe(no_mangle)]
pub extern "C" fn anim_row_place(plane: u64, row: u64, state: &[u8], a: &[u8], b: &[u8]) -> u64
    ensures { result ≡ place_or (row_c plane row state.now (length a.now) (length b.now)) }
{
    anim::anim_row_place(plane, row, state, a, b)
}

// The number of the refusal of such a row, 0 if it isn't refused.
#[unsafe(no_mangle)]
pub extern "C" fn anim_row_refusal(plane: u64, row: u64, state: &[u8], a: &[u8], b: &[u8]) -> u64
    ensures { result ≡ number_or (row_c plane row state.now (length a.now) (length b.now)) }
{
    anim::anim_row_refusal(plane, row, state, a, b)
}

// Writes the delta that turns the old frame into the new one, and its length.
#[unsafe(no_mangle)]
pub extern "C" fn anim_write_delta(
    width: u64,
    height: u64,
    planes: u64,
    old: &[u8],
    new: &[u8],
    out: &mut [u8],
    len: &mut [u8],
) -> u64
    ensures { WritesC (sizes_in width height planes) old.now new.now (record { out = out.old; len = len.old }) result
        (record { out = out.new; len = len.new }) }
{
    anim::anim_write_delta(width, height, planes, old, new, out, len)
}
