// One row of one plane of the shown picture.
#![tactic(auto, unfolding(crate::specs::Row::row_place, crate::specs::Row::row_of))]

ghost use Rattle.std.specs.Prelude.{◌≡◌, length};
ghost use Rattle.refusal.specs.Number.{result_of};
ghost use Rattle.shown.specs.Row.{row_place, row_of};

use refusal::Refusal;
use state::State;

// Where a row of a plane stands in the buffer that is shown.
pub fn row_place(
    state: State,
    a: &[u8],
    b: &[u8],
    plane: usize,
    row: usize,
) -> Result<usize, Refusal>
    ensures { result_of result ≡ row_place state (length a.now) (length b.now) plane row }
{
    let sizes = state.sizes;
    state.lent_length(a.len(), b.len())?;
    if sizes.planes <= plane {
        return Err(Refusal::NoSuchRow);
    }
    if sizes.height <= row {
        return Err(Refusal::NoSuchRow);
    }
    Ok((plane * sizes.height + row) * sizes.row_bytes())
}

// A row of a plane as a part of A in odd frames and of B in even ones; an empty part where it is refused.
pub fn row<'a>(state: State, a: &'a [u8], b: &'a [u8], plane: usize, row: usize) -> &'a [u8]
    ensures { result.now ≡ row_of state a.now b.now plane row }
{
    let Ok(start) = row_place(state, a, b, plane, row) else {
        return &a[..0];
    };
    let end = start + state.sizes.row_bytes();
    if state.shows_a() {
        &a[start..end]
    } else {
        &b[start..end]
    }
}
