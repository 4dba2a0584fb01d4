// The player's state and the sizes of a picture: their limits, and how long a frame of those sizes is.
#![tactic(auto, unfolding(crate::specs::State::lent_length, crate::specs::State::step_length, crate::specs::State::state_length, crate::specs::State::frame_length, crate::specs::World::is_odd))]

ghost use Rattle.std.specs.Prelude.{◌≡◌};
ghost use Rattle.refusal.specs.Number.{result_of};
ghost use Rattle.state.specs.World.{is_odd};
ghost use Rattle.state.specs.State.{row_bytes, within, frame_length, state_length, lent_length, step_length, opened, zeros, moved};

use refusal::Refusal;

// The sizes of a picture.
#[derive(Clone, Copy, Debug, PartialEq, Eq)]
pub struct Sizes {
    pub width: usize,
    pub height: usize,
    pub planes: usize,
}

// The state of a player: the sizes, the frame number, the place where the file is read on, and the end of FORM ANIM.
#[derive(Clone, Copy, Debug, PartialEq, Eq)]
pub struct State {
    pub sizes: Sizes,
    pub frame: usize,
    pub next: usize,
    pub end: usize,
}

// Kept: the method stays a number, as C gets it.
// What a taken step on reports: the method, the relative time, how many bytes of the picture changed, the record's length, and the number
// of ops, 0 for lists of words.
#[derive(Clone, Copy, Debug, PartialEq, Eq)]
pub struct Report {
    pub method: usize,
    pub time: usize,
    pub changed: usize,
    pub record_length: usize,
    pub ops: usize,
}

fn within(least: usize, most: usize, x: usize) -> bool
    ensures { result ≡ within least most x }
{
    (least..=most).contains(&x)
}

impl Sizes {
    // The bytes of one row of one plane.
    pub fn row_bytes(self) -> usize
        ensures { result ≡ row_bytes self.width }
    {
        2 * (self.width / 16 + (self.width % 16 + 15) / 16)
    }

    // The bytes of a frame of these sizes.
    pub fn frame_length(self) -> Result<usize, Refusal>
        ensures { result_of result ≡ frame_length self }
    {
        if !within(1, State::MAX_WIDTH, self.width) {
            return Err(Refusal::OutsideLimits);
        }
        if !within(1, State::MAX_HEIGHT, self.height) {
            return Err(Refusal::OutsideLimits);
        }
        if !within(1, State::MAX_PLANES, self.planes) {
            return Err(Refusal::OutsideLimits);
        }
        let plane = self.height * self.row_bytes();
        let frame = self.planes * plane;
        Ok(frame)
    }
}

impl State {
    // The limits of a state.
    pub const MAX_WIDTH: usize = 1024;

    pub const MAX_HEIGHT: usize = 1024;

    pub const MAX_PLANES: usize = 8;

    pub const MAX_FRAME: usize = 1_000_000;

    pub const MIN_PLACE: usize = 12;

    pub const MAX_PLACE: usize = 2_147_483_647;

    // The state after opening: frame 1 is shown.
    pub fn opened(sizes: Sizes, next: usize, end: usize) -> State
        ensures { result ≡ opened sizes next end }
    {
        State {
            sizes,
            frame: 1,
            next,
            end,
        }
    }

    // The state of nothing opened: six zeros.
    pub fn zeros() -> State
        ensures { result ≡ zeros }
    {
        let sizes = Sizes {
            width: 0,
            height: 0,
            planes: 0,
        };
        State {
            sizes,
            frame: 0,
            next: 0,
            end: 0,
        }
    }

    // The state after a step to another frame.
    pub fn moved(self, frame: usize, place: usize) -> State
        ensures { result ≡ moved self frame place }
    {
        State {
            sizes: self.sizes,
            frame,
            next: place,
            end: self.end,
        }
    }

    // Whether A is shown, as at odd frames, or B.
    pub fn shows_a(self) -> bool
        ensures { result ≡ is_odd self.frame }
    {
        self.frame % 2 == 1
    }

    // The bytes of a frame, if the whole state is within the limits.
    pub fn frame_length(self) -> Result<usize, Refusal>
        ensures { result_of result ≡ state_length self }
    {
        if !within(1, State::MAX_FRAME, self.frame) {
            return Err(Refusal::OutsideLimits);
        }
        if !within(State::MIN_PLACE, self.end, self.next) {
            return Err(Refusal::OutsideLimits);
        }
        if State::MAX_PLACE < self.end {
            return Err(Refusal::OutsideLimits);
        }
        self.sizes.frame_length()
    }

    // The bytes of a frame, if the whole state is within the limits and A and B have the length of one.
    pub fn lent_length(self, a: usize, b: usize) -> Result<usize, Refusal>
        ensures { result_of result ≡ lent_length self a b }
    {
        let n = self.frame_length()?;
        if a != n {
            return Err(Refusal::BufferLength);
        }
        if b != n {
            return Err(Refusal::BufferLength);
        }
        Ok(n)
    }

    // The same, if the map has its length too.
    pub fn step_length(self, a: usize, b: usize, map: usize) -> Result<usize, Refusal>
        ensures { result_of result ≡ step_length self a b map }
    {
        let n = self.lent_length(a, b)?;
        if map != colours::MAP {
            return Err(Refusal::BufferLength);
        }
        Ok(n)
    }
}
