// The refusals of documents 01 and 02 and their numbers, but for 44, which is retired: no later one gets it.
#![tactic(auto)]

ghost use Rattle.std.specs.Prelude.{◌≡◌};
ghost use Rattle.refusal.specs.Number.{number_of};

#[derive(Clone, Copy, Debug, PartialEq, Eq)]
pub enum Refusal {
    OutsideLimits = 11,
    BufferLength = 12,
    FileTooLong = 13,
    NoSuchRow = 14,
    ChunkPastParent = 21,
    NotFormAnim = 22,
    NoPicture = 23,
    BadBmhd = 24,
    BadBody = 25,
    NoDelta = 31,
    ShortAnhd = 32,
    UnknownMethod = 33,
    UnknownInterleave = 34,
    UnknownOptions = 35,
    OddLongColumns = 36,
    BadColours = 37,
    BadPointer = 41,
    DeltaTooShort = 42,
    OpPastLastRow = 43,
    WordPastPlane = 45,
    NoRoom = 51,
    LastFrame = 53,
    BadRecord = 61,
    OtherRecord = 62,
}

impl Refusal {
    // The paper's number.
    pub fn number(self) -> u64
        ensures { result ≡ number_of self }
    {
        self as u64
    }
}
