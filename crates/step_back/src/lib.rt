// Stepping back: a record is put back, and the frame before is shown.
#![tactic(auto)]

ghost use Rattle.record.specs.Record.{restored};
ghost use Rattle.refusal.specs.Number.{result_of};
ghost use Rattle.state.specs.World.{shown_in};
ghost use Rattle.step_back.specs.Back.{retreat, MeetsBack};
ghost use Rattle.step_back.specs.Parts.{RestoresShown};

use refusal::Refusal;
use state::State;

// What stepping back answers, and the state after it.
// Kept: a state beside the answer, for `MeetsBack` says of a refusal, too, which state there is.
#[derive(Clone, Copy, Debug, PartialEq, Eq)]
pub struct SteppedBack {
    pub answer: Result<(), Refusal>,
    pub state: State,
}

// Puts a record back into the map and the shown buffer, A at an odd frame and B at an even one.
fn restore_shown(
    state: State,
    a: &mut [u8],
    b: &mut [u8],
    map: &mut [u8],
    bytes: &[u8],
) -> Result<usize, Refusal>
    ensures { RestoresShown (record { a = a.old; b = b.old; map = map.old; state = state })
        (restored bytes.now (shown_in (record { a = a.old; b = b.old; map = map.old; state = state }))
        map.old state.frame state.next) (result_of result) a.new b.new map.new }
{
    let frame = state.frame;
    let next = state.next;
    if state.shows_a() {
        return restore::restore(bytes, a, map, frame, next);
    }
    restore::restore(bytes, b, map, frame, next)
}

// Puts a record back where the state and the lengths of the buffers let a step back begin, and answers the place that it leads back to.
fn put_back(
    state: State,
    a: &mut [u8],
    b: &mut [u8],
    map: &mut [u8],
    bytes: &[u8],
) -> Result<usize, Refusal>
    ensures { RestoresShown (record { a = a.old; b = b.old; map = map.old; state = state })
        (retreat (record { a = a.old; b = b.old; map = map.old; state = state }) bytes.now)
        (result_of result) a.new b.new map.new }
{
    state.step_length(a.len(), b.len(), map.len())?;
    restore_shown(state, a, b, map, bytes)
}

// Steps back: a record is put back into the shown buffer and the map, and the frame before is shown.
pub fn step_back(
    state: State,
    a: &mut [u8],
    b: &mut [u8],
    map: &mut [u8],
    bytes: &[u8],
) -> SteppedBack
    ensures { MeetsBack (record { a = a.old; b = b.old; map = map.old; state = state }) bytes.now result
        (record { a = a.new; b = b.new; map = map.new; state = result.state }) }
{
    match put_back(state, a, b, map, bytes) {
        Err(why) => SteppedBack {
            answer: Err(why),
            state,
        },
        Ok(place) => SteppedBack {
            answer: Ok(()),
            state: state.moved(state.frame - 1, place),
        },
    }
}
