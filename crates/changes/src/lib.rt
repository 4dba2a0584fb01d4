// How many runs of changed bytes there are between two buffers, and how many bytes changed.
#![tactic(auto)]

ghost use Rattle.std.specs.Prelude.{◌≡◌, ◌+◌, ◌<◌, ◌≤◌, length};
ghost use Rattle.changes.specs.Count.{count, CountsBlock};

// How many runs there are, and how many bytes changed.
#[derive(Clone, Copy, Debug, PartialEq, Eq)]
pub struct Counts {
    pub runs: usize,
    pub changed: usize,
}

// The bytes of a block that changed, and those of them at which a run ends.
#[derive(Clone, Copy)]
struct Block {
    ends: u8,
    changed: u8,
}

// Counts size bytes from a place on, which aren't the last. There is no branch, so that many bytes are counted at once.
fn count_block(old: &[u8], new: &[u8], at: usize, size: usize) -> Block
    requires { (length old.now ≡ length new.now) × (at + size < length old.now) × (size ≤ 128) }
    ensures { CountsBlock old.now new.now at (at + size) result.ends result.changed }
{
    let mut ends: u8 = 0;
    let mut changed: u8 = 0;
    for i in 0..size {
        let differs = old[at + i] != new[at + i];
        let last = old[at + i + 1] == new[at + i + 1];
        ends += (differs & last) as u8;
        changed += differs as u8;
    }
    Block { ends, changed }
}

// Counts the runs and the bytes that changed, at a cost that does not depend on them. Between buffers of two lengths there are none.
pub fn count(old: &[u8], new: &[u8]) -> Counts
    ensures { result ≡ count old.now new.now }
{
    let n = old.len();
    let mut runs: usize = 0;
    let mut changed: usize = 0;
    if n != new.len() {
        return Counts { runs, changed };
    }
    if n == 0 {
        return Counts { runs, changed };
    }
    let mut at = 0;
    // Kept: no step_by, since the last block, of another length, begins where this loop ends.
    while 128 < n - at {
        let b = count_block(old, new, at, 128);
        runs += b.ends as usize;
        changed += b.changed as usize;
        at += 128;
    }
    let b = count_block(old, new, at, n - at - 1);
    runs += b.ends as usize;
    changed += b.changed as usize;
    if old[n - 1] == new[n - 1] {
        return Counts { runs, changed };
    }
    Counts {
        runs: runs + 1,
        changed: changed + 1,
    }
}
