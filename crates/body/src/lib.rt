// The picture in a BODY, plain or packed by ByteRun1.
#![tactic(auto)]

ghost use Rattle.std.specs.Prelude.{◌≡◌, ◌*◌, ◌≤◌, length, replicate};
ghost use Rattle.laws.specs.Result.{pick, or_keep, answer};
ghost use Rattle.laws.specs.Store.{over};
ghost use Rattle.refusal.specs.Number.{result_of};
ghost use Rattle.body.specs.ByteRun.{packet_at, unpack_row};
ghost use Rattle.body.specs.Body.{row_at, rows_from, unpack};
ghost use Rattle.body.specs.Walk.{packet_of, took, puts, Drawn, DrawnRows};
ghost use Rattle.state.specs.State.{Sound};

use copies::copy;
use refusal::Refusal;
use state::Sizes;

// One packet of ByteRun1 and the place after it.
#[derive(Clone, Copy)]
enum Packet<'a> {
    Copy {
        bytes: &'a [u8],
        next: usize,
    },
    Repeat {
        value: u8,
        count: usize,
        next: usize,
    },
    Nothing {
        next: usize,
    },
}

// How many bytes of a row were unpacked, and the place after what they were packed in.
#[derive(Clone, Copy)]
struct Took {
    count: usize,
    next: usize,
}

// The packet at a place, with room bytes left of its row.
#[tactic(auto, unfolding(crate::specs::ByteRun::packet_at))]
fn packet_at(s: &[u8], at: usize, room: usize) -> Result<Packet<'_>, Refusal>
    ensures { packet_of result ≡ packet_at s.now at room }
{
    if s.len() <= at {
        return Err(Refusal::BadBody);
    }
    let n = s[at];
    match n {
        0..=127 => {
            let count = usize::from(n) + 1;
            if room < count || s.len() - at - 1 < count {
                return Err(Refusal::BadBody);
            }
            let next = at + 1 + count;
            let bytes = &s[at + 1..next];
            Ok(Packet::Copy { bytes, next })
        }
        128 => Ok(Packet::Nothing { next: at + 1 }),
        129..=255 => {
            let count = 257 - usize::from(n);
            if room < count || s.len() - at < 2 {
                return Err(Refusal::BadBody);
            }
            let value = s[at + 1];
            let next = at + 2;
            Ok(Packet::Repeat { value, count, next })
        }
    }
}

// Puts bytes at the front of dst, if drawing is set.
// Kept: a flag here and below, since a walk that is handed a closure, with what its clause has to ask of it, is longer.
fn draw_copy(dst: &mut [u8], bytes: &[u8], drawing: bool)
    ensures { dst.new ≡ pick drawing (over dst.old bytes.now) dst.old }
{
    if drawing {
        copy(dst, bytes);
    }
}

// Puts one byte at the front of dst count times, if drawing is set.
#[tactic(auto, unfolding(laws::specs::Store::over))]
fn draw_fill(dst: &mut [u8], value: u8, count: usize, drawing: bool)
    requires { count ≤ length dst.old }
    ensures { dst.new ≡ pick drawing (over dst.old (replicate count value)) dst.old }
{
    if drawing {
        dst[..count].fill(value);
    }
}

// Takes the packet at a place; its bytes go to the front of dst, which is what is left of the row, if drawing is set.
fn take_packet(dst: &mut [u8], s: &[u8], at: usize, drawing: bool) -> Result<Took, Refusal>
    ensures { (result_of result ≡ took (packet_at s.now at (length dst.old)))
        × (dst.new ≡ puts dst.old (packet_at s.now at (length dst.old)) drawing) }
{
    match packet_at(s, at, dst.len())? {
        Packet::Nothing { next } => Ok(Took { count: 0, next }),
        Packet::Copy { bytes, next } => {
            draw_copy(dst, bytes, drawing);
            let count = bytes.len();
            Ok(Took { count, next })
        }
        Packet::Repeat { value, count, next } => {
            draw_fill(dst, value, count, drawing);
            Ok(Took { count, next })
        }
    }
}

// Unpacks the row at a place of BODY into dst, which has its length.
fn unpack_row(dst: &mut [u8], s: &[u8], from: usize, drawing: bool) -> Result<Took, Refusal>
    ensures { (result_of result ≡ took (unpack_row s.now from (length dst.old)))
        × Drawn dst.old (unpack_row s.now from (length dst.old)) drawing dst.new }
{
    let mut at = from;
    let mut filled = 0;
    // Kept: each turn goes on by what its packet fills, so that no range says how often this loop turns.
    while filled < dst.len() {
        let t = take_packet(&mut dst[filled..], s, at, drawing)?;
        filled += t.count;
        at = t.next;
    }
    Ok(Took {
        count: filled,
        next: at,
    })
}

// The row at a place of BODY, packed or not, into dst, which has its length.
fn take_row(
    dst: &mut [u8],
    s: &[u8],
    at: usize,
    packed: bool,
    drawing: bool,
) -> Result<Took, Refusal>
    ensures { (result_of result ≡ took (row_at s.now at (length dst.old) packed))
        × Drawn dst.old (row_at s.now at (length dst.old) packed) drawing dst.new }
{
    if packed {
        return unpack_row(dst, s, at, drawing);
    }
    let row = dst.len();
    if s.len() < at || s.len() - at < row {
        return Err(Refusal::BadBody);
    }
    let next = at + row;
    draw_copy(dst, &s[at..next], drawing);
    Ok(Took { count: row, next })
}

// Finds whether count rows of BODY are all there. The frame stays as it is.
// Not inlined, so that this walk and the next don't share their registers with all of opening, which took up to a fifth longer.
#[inline(never)]
fn check_rows(
    frame: &mut [u8],
    s: &[u8],
    row: usize,
    count: usize,
    packed: bool,
) -> Result<(), Refusal>
    requires { (row ≤ length frame.old) × (count * row ≤ 8 * 1024 * 128) }
    ensures { (result_of result ≡ answer (rows_from s.now 0 row count packed)) × (frame.new ≡ frame.old) }
{
    if !packed {
        if s.len() < count * row {
            return Err(Refusal::BadBody);
        }
        return Ok(());
    }
    let mut at = 0;
    for _ in 0..count {
        let t = take_row(&mut frame[..row], s, at, packed, false)?;
        at = t.next;
    }
    Ok(())
}

// Puts the rows of BODY into the frame.
#[inline(never)]
fn draw_rows(frame: &mut [u8], s: &[u8], sizes: Sizes, packed: bool)
    requires { Sound sizes (length frame.old) }
    ensures { DrawnRows frame.old s.now sizes packed frame.new }
{
    let row = sizes.row_bytes();
    let down = sizes.height * row;
    let mut at = 0;
    for line in 0..sizes.height {
        let mut place = line * row;
        for plane in 0..sizes.planes {
            let dst = &mut frame[place..place + row];
            let Ok(t) = take_row(dst, s, at, packed, true) else {
                return;
            };
            at = t.next;
            place += down;
        }
    }
}

// Unpacks a BODY into the frame, all or nothing.
#[tactic(auto, unfolding(crate::specs::Body::unpack, crate::specs::Body::body))]
pub fn unpack(frame: &mut [u8], s: &[u8], sizes: Sizes, packed: bool) -> Result<(), Refusal>
    ensures { (result_of result ≡ answer (unpack (length frame.old) s.now sizes packed))
        × (frame.new ≡ or_keep frame.old (unpack (length frame.old) s.now sizes packed)) }
{
    let length = sizes.frame_length()?;
    if frame.len() != length {
        return Err(Refusal::BufferLength);
    }
    let row = sizes.row_bytes();
    check_rows(frame, s, row, sizes.height * sizes.planes, packed)?;
    draw_rows(frame, s, sizes, packed);
    Ok(())
}
