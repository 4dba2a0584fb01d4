// Eight bytes of two buffers, compared at once.
ghost use Rattle.std.specs.Prelude.{◌≡◌, ◌+◌, ◌<◌, ◌≤◌, length, take, drop};
ghost use Rattle.laws.specs.Bytes.{word_of, Bytes};
ghost use Rattle.runs.specs.Word.{zero_bytes, Stop};

use crate::Pair;

// A word of bytes that are 127, and one of bytes that are 128.
const LOW: u64 = 0x7f7f_7f7f_7f7f_7f7f;

const HIGH: u64 = 0x8080_8080_8080_8080;

// Eight bytes from a place on as a number, the lowest first.
// Kept: beside number64 of words, since a public function for both would ask for a length at each eight bytes that are compared.
fn word(s: &[u8], at: usize) -> u64
    requires { at + 8 ≤ length s.now }
    ensures { (result ≡ word_of (take 8 (drop at s.now))) × Bytes s.now }
{
    let mut bytes = [0; 8];
    bytes.copy_from_slice(&s[at..at + 8]);
    u64::from_le_bytes(bytes)
}

// 128 in each byte of a word that is 0, and 0 in the others.
#[tactic(auto, unfolding(crate::specs::Word::zero_bytes))]
fn zero_bytes(w: u64) -> u64
    ensures { result ≡ zero_bytes 9187201950435737471 9259542123273814144 w }
{
    HIGH - ((((w & LOW) + LOW) | w) & HIGH)
}

impl Pair<'_> {
    // Kept: 0 and no None where nothing stops, since the callers count the trailing zeros of the same number.
    // Compares eight bytes from a place on: 0 if all are equal, or all different; else its lowest byte that isn't 0 is the first that stops.
    pub(crate) fn stop(&self, equal: bool, at: usize) -> u64
        requires { at + 8 ≤ length self.now.first.now }
        ensures { Stop equal self.now.first.now self.now.second.now at result }
    {
        let differences = word(self.first, at) ^ word(self.second, at);
        if equal {
            return differences;
        }
        zero_bytes(differences)
    }
}
