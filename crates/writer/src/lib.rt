// The writer of method 5 deltas: what turns one frame into another.
#![tactic(auto)]

mod plane;

ghost use Rattle.std.specs.Prelude.{◌≡◌, ◌+◌, ◌*◌, ◌^◌, ◌<◌, ◌≤◌, length, eqb, ltb};
ghost use Rattle.std.proofs.lemmas.List.Edits.{sets};
ghost use Rattle.laws.specs.Bytes.{be32_bytes};
ghost use Rattle.laws.specs.Result.{pick};
ghost use Rattle.refusal.specs.Number.{result_of};
ghost use Rattle.writer.specs.Write.{pointers_bytes, lists_bytes, Writes};

use crate::plane::Pair;
use refusal::Refusal;
use state::Sizes;

// How many bytes the lists of all planes have.
fn lists_length(pair: &Pair<'_>) -> usize
    ensures { (result ≡ length (lists_bytes pair.now.old.now pair.now.new.now pair.now.row pair.now.height pair.now.planes 0))
        × (result ≤ (1 + 3 * 1024) * 128 * 8) }
{
    let mut sum = 0;
    let mut at = 0;
    for _ in 0..pair.planes {
        sum += pair.plane_length(at);
        at += pair.plane_size();
    }
    sum
}

// Whether the delta is longer than the room for it. If even the longest of these sizes is not, nothing is measured.
fn too_long(room: usize, pair: &Pair<'_>) -> bool
    ensures { result ≡ ltb room (64 + length (lists_bytes pair.now.old.now pair.now.new.now pair.now.row pair.now.height pair.now.planes 0)) }
{
    let longest = 64 + pair.planes * (pair.row * (pair.height + pair.height / 2 + 2));
    if longest <= room {
        return false;
    }
    room < 64 + lists_length(pair)
}

// Writes the pointer of a plane whose list lies between two places: 0 where there is none.
// Kept: out and a place, since a struct that holds the buffer needs a clause that it stays the same reference.
fn write_pointer(out: &mut [u8], at: usize, place: usize, next: usize)
    requires { (at + 4 ≤ length out.old) × (place < 2 ^ 32) }
    ensures { out.new ≡ sets out.old at (be32_bytes (pick (eqb next place) 0 place)) }
{
    let pointer = if next == place { 0 } else { place };
    let end = at + 4;
    out[at..end].copy_from_slice(&(pointer as u32).to_be_bytes());
}

// Writes the pointers and the lists of all planes, and answers the place after them.
fn write_planes(out: &mut [u8], pair: &Pair<'_>) -> usize
    requires { 64 + length (lists_bytes pair.now.old.now pair.now.new.now pair.now.row pair.now.height pair.now.planes 0) ≤ length out.old }
    ensures { (result ≡ 64 + length (lists_bytes pair.now.old.now pair.now.new.now pair.now.row pair.now.height pair.now.planes 0))
        × (out.new ≡ sets (sets out.old 0 (pointers_bytes pair.now.old.now pair.now.new.now pair.now.row pair.now.height pair.now.planes 0 64)) 64
        (lists_bytes pair.now.old.now pair.now.new.now pair.now.row pair.now.height pair.now.planes 0)) }
{
    let mut place = 64;
    let mut at = 0;
    for plane in 0..pair.planes {
        let next = pair.write_plane(out, place, at);
        write_pointer(out, 4 * plane, place, next);
        place = next;
        at += pair.plane_size();
    }
    place
}

// Writes the delta that turns the old frame into the new one: 11 for the sizes, 12 for the frames, 51 if it doesn't fit.
pub fn write(out: &mut [u8], old: &[u8], new: &[u8], sizes: Sizes) -> Result<usize, Refusal>
    ensures { Writes out.old old.now new.now sizes (result_of result) out.new }
{
    let n = sizes.frame_length()?;
    if old.len() != n || new.len() != n {
        return Err(Refusal::BufferLength);
    }
    let pair = Pair {
        old,
        new,
        row: sizes.row_bytes(),
        height: sizes.height,
        planes: sizes.planes,
    };
    if too_long(out.len(), &pair) {
        return Err(Refusal::NoRoom);
    }
    let start = 4 * sizes.planes;
    out[start..64].fill(0);
    Ok(write_planes(out, &pair))
}
