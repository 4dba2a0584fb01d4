// The longest stretches of bytes that changed between two buffers, found one after the other.
#![tactic(auto)]

ghost use Rattle.std.specs.Prelude.{◌≡◌, ◌+◌, ◌<◌, ◌≤◌, leb, length, drop};
ghost use Rattle.runs.specs.Runs.{next_run, change_of};
ghost use Rattle.runs.specs.Stretch.{stretch, Scanned};

mod word;

// A run of changed bytes: the unchanged bytes before it, and its length.
#[derive(Clone, Copy, Debug, PartialEq, Eq)]
pub struct Change {
    pub gap: usize,
    pub count: usize,
}

// Two buffers of one length, that are compared.
#[derive(Clone, Copy)]
struct Pair<'a> {
    first: &'a [u8],
    second: &'a [u8],
    ghost one_length: { length first.now ≡ length second.now },
}

impl Pair<'_> {
    // Kept: a flag here and below, since a search that is handed a closure, with what its clause has to ask of it, is longer.
    // Whether the bytes of a block are all equal, or all different. There is no early exit, so that they are compared all at once.
    fn block_is(&self, equal: bool, at: usize, size: usize) -> bool
        requires { at + size ≤ length self.now.first.now }
        ensures { result ≡ leb size (stretch equal (drop at self.now.first.now) (drop at self.now.second.now)) }
    {
        let mut all = true;
        for i in 0..size {
            if (self.first[at + i] == self.second[at + i]) != equal {
                all = false;
            }
        }
        all
    }

    // Kept: the place is asked for here and below beside the pair, since each search begins at another.
    // A place up to which the bytes from a place on are all equal, or all different, found by blocks.
    fn skip_blocks(&self, equal: bool, from: usize, size: usize) -> usize
        requires { (from ≤ length self.now.first.now) × (0 < size) }
        ensures { Scanned equal self.now.first.now self.now.second.now from result }
    {
        let mut i = from;
        // Kept: no step_by, since the search goes on from where this loop ends.
        while size <= self.first.len() - i {
            if !self.block_is(equal, i, size) {
                return i;
            }
            i += size;
        }
        i
    }

    // The end of a stretch of equal, or of different, bytes from a place on, found byte by byte.
    fn byte_end(&self, equal: bool, from: usize) -> usize
        requires { from ≤ length self.now.first.now }
        ensures { result ≡ from + stretch equal (drop from self.now.first.now) (drop from self.now.second.now) }
    {
        for i in from..self.first.len() {
            if (self.first[i] == self.second[i]) != equal {
                return i;
            }
        }
        self.first.len()
    }

    // The end of such a stretch, found by eight bytes at a time.
    fn word_end(&self, equal: bool, from: usize) -> usize
        requires { from ≤ length self.now.first.now }
        ensures { result ≡ from + stretch equal (drop from self.now.first.now) (drop from self.now.second.now) }
    {
        let mut i = from;
        // Kept: no step_by, since the bytes that are left over begin where this loop ends.
        while 8 <= self.first.len() - i {
            let s = self.stop(equal, i);
            if s != 0 {
                return i + (u64::trailing_zeros(s) / 8) as usize;
            }
            i += 8;
        }
        self.byte_end(equal, i)
    }
}

// The end of such a stretch. Most are short, so that eight bytes are looked at first; long ones are passed by blocks.
// Kept: the buffers and no Pair, which each call would hand on in memory: with it a step of many short runs took up to 1.4 times as long.
fn stretch_end(equal: bool, first: &[u8], second: &[u8], from: usize) -> usize
    requires { (length first.now ≡ length second.now) × (from ≤ length first.now) }
    ensures { result ≡ from + stretch equal (drop from first.now) (drop from second.now) }
{
    let pair = Pair { first, second };
    if first.len() - from < 8 {
        return pair.byte_end(equal, from);
    }
    let s = pair.stop(equal, from);
    if s != 0 {
        return from + (u64::trailing_zeros(s) / 8) as usize;
    }
    let near = pair.skip_blocks(equal, from + 8, 32);
    pair.word_end(equal, near)
}

// The next run of changed bytes from a place on, if there is one. There is none between buffers of two lengths.
pub fn next_run(old: &[u8], new: &[u8], at: usize) -> Option<Change>
    ensures { change_of result ≡ next_run old.now new.now at }
{
    if old.len() != new.len() {
        return None;
    }
    if old.len() <= at {
        return None;
    }
    let start = stretch_end(true, old, new, at);
    if old.len() <= start {
        return None;
    }
    let end = stretch_end(false, old, new, start);
    Some(Change {
        gap: start - at,
        count: end - start,
    })
}
