// States as numbers of eight bytes, the lowest byte first, read from lent buffers.
#![tactic(auto)]

ghost use Rattle.std.specs.Prelude.{◌≡◌, ◌+◌, ◌≤◌, length};
ghost use Rattle.words.specs.Words.{le64, read_state};

use state::{Sizes, State};

// The number in eight bytes from a place on.
fn number64(s: &[u8], at: usize) -> usize
    requires { at + 8 ≤ length s.now }
    ensures { result ≡ le64 s.now at }
{
    let mut bytes = [0; 8];
    bytes.copy_from_slice(&s[at..at + 8]);
    u64::from_le_bytes(bytes) as usize
}

// The state in a buffer of 48 bytes; any other holds six zeros.
#[tactic(auto, unfolding(crate::specs::Words::read_state))]
pub fn read_state(s: &[u8]) -> State
    ensures { result ≡ read_state s.now }
{
    if s.len() != 48 {
        return State::zeros();
    }
    let sizes = Sizes {
        width: number64(s, 0),
        height: number64(s, 8),
        planes: number64(s, 16),
    };
    State {
        sizes,
        frame: number64(s, 24),
        next: number64(s, 32),
        end: number64(s, 40),
    }
}
