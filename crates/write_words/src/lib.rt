// States and reports as numbers of eight bytes, the lowest byte first, written into lent buffers.
#![tactic(auto)]

ghost use Rattle.std.specs.Prelude.{[], ◌∷◌, ◌≡◌};
ghost use Rattle.words.specs.Words.{state_words, report_words, lay};

use state::{Report, State};

// Writes numbers one after the other into a buffer of their length.
fn write_words(out: &mut [u8], numbers: &[usize])
    ensures { out.new ≡ lay out.old numbers.now }
{
    if out.len() != 8 * numbers.len() {
        return;
    }
    for (i, n) in numbers.iter().enumerate() {
        let at = 8 * i;
        let bytes = (*n as u64).to_le_bytes();
        out[at..at + 8].copy_from_slice(&bytes);
    }
}

// Writes a state into a buffer of 48 bytes.
#[tactic(auto, unfolding(words::specs::Words::state_words))]
pub fn write_state(out: &mut [u8], state: State)
    ensures { out.new ≡ lay out.old (state_words state) }
{
    let numbers = [
        state.sizes.width,
        state.sizes.height,
        state.sizes.planes,
        state.frame,
        state.next,
        state.end,
    ];
    write_words(out, &numbers);
}

// Writes a report into a buffer of 40 bytes.
#[tactic(auto, unfolding(words::specs::Words::report_words))]
pub fn write_report(out: &mut [u8], report: Report)
    ensures { out.new ≡ lay out.old (report_words report) }
{
    let numbers = [
        report.method,
        report.time,
        report.changed,
        report.record_length,
        report.ops,
    ];
    write_words(out, &numbers);
}

// Writes one number into a buffer of eight bytes.
pub fn write_number(out: &mut [u8], n: usize)
    ensures { out.new ≡ lay out.old (n ∷ []) }
{
    write_words(out, &[n]);
}
