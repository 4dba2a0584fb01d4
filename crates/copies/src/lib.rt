// Copies from one lent buffer to another: as far as both go, of many bytes, and of a part. Each public function takes any buffers; the
// definitions are those of the crate laws.
#![tactic(auto)]

ghost use Rattle.std.specs.Prelude.{◌≡◌, take, drop};
ghost use Rattle.std.proofs.lemmas.List.Edits.{sets};
ghost use Rattle.laws.specs.Result.{pick};
ghost use Rattle.laws.specs.Store.{over};

// Copies src to the front of dst, as far as both go.
// Kept: copy_from_slice calls memmove, with which a step with few changes took a fifth longer and its step back half as long again.
pub fn copy(dst: &mut [u8], src: &[u8])
    ensures { dst.new ≡ over dst.old src.now }
{
    let n = dst.len().min(src.len());
    for i in 0..n {
        dst[i] = src[i];
    }
}

// The same for many bytes: from 32 on the last block of 32 overlaps the one before it, so that none are left to copy one by one.
// Kept: copy_from_slice of the last block alone, which has a fixed length; of all bytes it calls memmove, a name that libanim.a doesn't need.
pub fn copy_long(dst: &mut [u8], src: &[u8])
    ensures { dst.new ≡ over dst.old src.now }
{
    let count = dst.len().min(src.len());
    if count < 32 {
        copy(dst, src);
        return;
    }
    let blocks = (count - 1) / 32;
    copy(&mut dst[..32 * blocks], src);
    let last = count - 32;
    dst[last..count].copy_from_slice(&src[last..count]);
}

// Copies count bytes from a place of src to a place of dst, as far as both go, if they are wanted.
// Kept: the flag and the places, since the clause of this public function is stated by them.
pub fn copy_part(dst: &mut [u8], to: usize, src: &[u8], from: usize, count: usize, wanted: bool)
    ensures { dst.new ≡ pick wanted (sets dst.old to (take count (drop from src.now))) dst.old }
{
    if !wanted || dst.len() < to || src.len() < from {
        return;
    }
    let n = count.min(dst.len() - to).min(src.len() - from);
    copy(&mut dst[to..to + n], &src[from..from + n]);
}
