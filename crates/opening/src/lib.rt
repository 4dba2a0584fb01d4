// Opening: both picture buffers get the first picture of a file, and the map its colours. The length of its frame can be asked before, by
// `frame_size`.
#![tactic(auto, unfolding(crate::specs::Open::body_in, crate::specs::Open::places_in, crate::specs::Open::first_places, crate::specs::Open::first_header, crate::specs::Open::frame_size, crate::specs::Open::first_picture))]

ghost use Rattle.std.specs.Prelude.{◌≡◌, length};
ghost use Rattle.refusal.specs.Number.{result_of};
ghost use Rattle.opening.specs.Open.{body_in, places_in, first_places, first_header, frame_size, first_of, opening, opened_file, Opens, MeetsOpen};
ghost use Rattle.opening.specs.Parts.{places_of, OpensFirst};

mod picture;

use crate::picture::{first_map, first_picture};
use bmhd::Header;
use colours::MAP;
use copies::copy_long;
use iff::ids::{ANHD, BMHD, BODY, DLTA};
use refusal::Refusal;
use state::State;

// What opening answers, and the state after it: six zeros where it is refused.
// Kept: a state beside the answer, for `MeetsOpen` says of a refusal, too, which state there is.
#[derive(Clone, Copy, Debug, PartialEq, Eq)]
pub struct OpenedFile {
    pub answer: Result<(), Refusal>,
    pub state: State,
}

// Where the first picture stands: the end of FORM ANIM, the place past its FORM, the chunks of that, len bytes from start on, and
// whether they have a BODY.
// Kept: places and no slice, since the definition places_in says where the FORM stands.
#[derive(Clone, Copy)]
struct Located {
    end: usize,
    next: usize,
    start: usize,
    len: usize,
    body: bool,
}

// Looks for a BMHD, and a BODY or else a DLTA; answers whether there is a BODY.
fn body_in(chunks: &[u8]) -> Result<bool, Refusal>
    ensures { result_of result ≡ body_in chunks.now }
{
    let p = iff::find_three(chunks, BMHD, BODY, DLTA)?;
    p.first.ok_or(Refusal::NoPicture)?;
    if p.second.is_some() {
        return Ok(true);
    }
    p.third.ok_or(Refusal::NoPicture)?;
    Ok(false)
}

// Finds the first picture in FORM ANIM.
fn places_in(anim: &[u8]) -> Result<Located, Refusal>
    ensures { places_of result ≡ places_in anim.now }
{
    let form = form::next_form(anim, 12)?.ok_or(Refusal::NoPicture)?;
    let stop = form.start + form.len;
    let body = body_in(&anim[form.start..stop])?;
    Ok(Located {
        end: anim.len(),
        next: form.next,
        start: form.start,
        len: form.len,
        body,
    })
}

// Finds the first picture of a file.
fn first_places(file: &[u8]) -> Result<Located, Refusal>
    ensures { places_of result ≡ first_places file.now }
{
    if State::MAX_PLACE < file.len() {
        return Err(Refusal::FileTooLong);
    }
    let end = form::anim_end(file)?;
    places_in(&file[..end])
}

// What the first picture's BMHD says; without a BODY, ANHD must be there too, and is looked for first.
// Kept: a flag here and below, since the definition first_header has it.
fn first_header(chunks: &[u8], body: bool) -> Result<Header, Refusal>
    ensures { result_of result ≡ first_header chunks.now body }
{
    if !body {
        iff::find(chunks, ANHD)?.ok_or(Refusal::NoDelta)?;
    }
    bmhd::bitmap_header(iff::contents(chunks, BMHD))
}

// The length of the first picture's frame, or what refuses it up to and including its BMHD.
pub fn frame_size(file: &[u8]) -> Result<usize, Refusal>
    ensures { result_of result ≡ frame_size file.now }
{
    let p = first_places(file)?;
    let stop = p.start + p.len;
    let header = first_header(&file[p.start..stop], p.body)?;
    Ok(header.length)
}

// Opens with the chunks of the first frame.
// Kept: the lent buffers as parameters, since a struct of them needs a clause for each that it stays the same reference.
fn open_picture(
    chunks: &[u8],
    body: bool,
    next: usize,
    end: usize,
    a: &mut [u8],
    b: &mut [u8],
    map: &mut [u8],
) -> Result<State, Refusal>
    ensures { OpensFirst (first_of chunks.now body (length a.old) (length b.old) (length map.old)) next end
        a.old b.old map.old (opened_file result) (record { a = a.new; b = b.new; map = map.new; state = (opened_file result).state }) }
{
    let header = first_header(chunks, body)?;
    if a.len() != header.length {
        return Err(Refusal::BufferLength);
    }
    if b.len() != header.length {
        return Err(Refusal::BufferLength);
    }
    if map.len() != MAP {
        return Err(Refusal::BufferLength);
    }
    first_picture(a, chunks, body, header)?;
    copy_long(b, a);
    first_map(map, chunks);
    Ok(State::opened(header.sizes, next, end))
}

// Opens a file, and answers the state after it.
fn open_file(file: &[u8], a: &mut [u8], b: &mut [u8], map: &mut [u8]) -> Result<State, Refusal>
    ensures { Opens (opening file.now (length a.old) (length b.old) (length map.old)) a.old b.old map.old (opened_file result)
        (record { a = a.new; b = b.new; map = map.new; state = (opened_file result).state }) }
{
    let p = first_places(file)?;
    let stop = p.start + p.len;
    open_picture(&file[p.start..stop], p.body, p.next, p.end, a, b, map)
}

// Opens a file: A and B get its first picture and the map its colours, all or nothing.
pub fn open(file: &[u8], a: &mut [u8], b: &mut [u8], map: &mut [u8]) -> OpenedFile
    ensures { MeetsOpen file.now a.old b.old map.old result
        (record { a = a.new; b = b.new; map = map.new; state = result.state }) }
{
    match open_file(file, a, b, map) {
        Ok(state) => OpenedFile {
            answer: Ok(()),
            state,
        },
        Err(why) => OpenedFile {
            answer: Err(why),
            state: State::zeros(),
        },
    }
}
