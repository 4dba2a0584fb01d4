// Chunks of an IFF file: what stands at a place, and the first chunk of an id, whose contents are a part of the lent slice.
#![tactic(auto, unfolding(crate::specs::Chunk::chunk_at, crate::specs::Chunk::contents))]

ghost use Rattle.std.specs.Prelude.{◌≡◌, eqb};
ghost use Rattle.laws.specs.Result.{pick};
ghost use Rattle.iff.specs.Chunk.{chunk_at, standing_of, find, found_of, FindsAll, FindsThree, or_part, contents};

pub mod ids;

use buffer::number32;
use refusal::Refusal;

// Where the contents of a chunk stand, in their parent unless said otherwise.
// Kept: places and no slice, since the definition find says where the contents stand.
#[derive(Clone, Copy, Debug, PartialEq, Eq)]
pub struct Part {
    pub start: usize,
    pub len: usize,
}

// A whole chunk: len bytes of contents from start on; next is past them and their pad.
// Kept: places and no slice, since the definition chunk_at says where the contents stand.
#[derive(Clone, Copy, Debug, PartialEq, Eq)]
pub struct Chunk {
    pub id: usize,
    pub start: usize,
    pub len: usize,
    pub next: usize,
}

// What a search for three chunks finds.
#[derive(Clone, Copy, Debug, PartialEq, Eq)]
pub struct Three {
    pub first: Option<Part>,
    pub second: Option<Part>,
    pub third: Option<Part>,
}

// What stands at a place of a parent: a chunk, or nothing at its end.
pub fn chunk_at(s: &[u8], at: usize) -> Result<Option<Chunk>, Refusal>
    ensures { standing_of result ≡ chunk_at s.now at }
{
    if s.len() <= at {
        return Ok(None);
    }
    if s.len() - at < 8 {
        return Err(Refusal::ChunkPastParent);
    }
    let len = number32(s, at + 4);
    let padded = len + len % 2;
    if s.len() - at - 8 < padded {
        return Err(Refusal::ChunkPastParent);
    }
    Ok(Some(Chunk {
        id: number32(s, at),
        start: at + 8,
        len,
        next: at + 8 + padded,
    }))
}

// The part found so far, or else this chunk's, if it has the id.
fn or_part(found: Option<Part>, wanted: usize, chunk: Chunk) -> Option<Part>
    ensures { found_of (Ok result) ≡ pick (eqb chunk.id wanted) (or_part (found_of (Ok found)) (record { start = chunk.start; size = chunk.len })) (found_of (Ok found)) }
{
    if chunk.id != wanted {
        return found;
    }
    found.or(Some(Part {
        start: chunk.start,
        len: chunk.len,
    }))
}

// The first chunks of ids, in one walk. The parent is walked to its end, so that a chunk that passes it is found too.
fn find_all<const N: usize>(s: &[u8], ids: [usize; N]) -> Result<[Option<Part>; N], Refusal>
    ensures { FindsAll s.now ids.entry result }
{
    let mut at = 0;
    let mut found = [None; N];
    while let Some(chunk) = chunk_at(s, at)? {
        for i in 0..N {
            found[i] = or_part(found[i], ids[i], chunk);
        }
        at = chunk.next;
    }
    Ok(found)
}

// The first chunks of three ids.
pub fn find_three(s: &[u8], first: usize, second: usize, third: usize) -> Result<Three, Refusal>
    ensures { FindsThree s.now first second third result }
{
    let found = find_all(s, [first, second, third])?;
    Ok(Three {
        first: found[0],
        second: found[1],
        third: found[2],
    })
}

// The first chunk of an id.
pub fn find(s: &[u8], wanted: usize) -> Result<Option<Part>, Refusal>
    ensures { found_of result ≡ find s.now wanted }
{
    let found = find_all(s, [wanted])?;
    Ok(found[0])
}

// The contents of the first chunk of an id, as a part of the parent; an empty part where there is none.
pub fn contents(s: &[u8], wanted: usize) -> &[u8]
    ensures { result.now ≡ contents s.now wanted }
{
    match find(s, wanted) {
        Ok(Some(part)) => {
            let end = part.start + part.len;
            &s[part.start..end]
        }
        _ => &s[..0],
    }
}
