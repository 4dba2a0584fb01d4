// The ids of chunks and the types of FORMs: four letters each, as a number, the first letter the highest byte.
// Kept: an id stays a number, since the definition chunk_at answers any four bytes of a file as one.
macro_rules! id {
    ($letters:literal) => {
        ($letters[0] as usize) << 24
            | ($letters[1] as usize) << 16
            | ($letters[2] as usize) << 8
            | $letters[3] as usize
    };
}

pub const FORM: usize = id!(b"FORM");

pub const ANIM: usize = id!(b"ANIM");

pub const ILBM: usize = id!(b"ILBM");

pub const BMHD: usize = id!(b"BMHD");

pub const BODY: usize = id!(b"BODY");

pub const CMAP: usize = id!(b"CMAP");

pub const ANHD: usize = id!(b"ANHD");

pub const DLTA: usize = id!(b"DLTA");
