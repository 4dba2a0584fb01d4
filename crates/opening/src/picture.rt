// The first picture: A gets its bytes, from a BODY or a delta, and the map its colours.
ghost use Rattle.std.specs.Prelude.{◌≡◌, length};
ghost use Rattle.laws.specs.Result.{Res.ok, answer};
ghost use Rattle.refusal.specs.Number.{result_of};
ghost use Rattle.colours.specs.Colours.{MAP, colours};
ghost use Rattle.state.specs.State.{frame_length};
ghost use Rattle.opening.specs.Open.{first_delta, first_body, first_picture, first_map};
ghost use Rattle.opening.specs.Parts.{Fills};

use bmhd::Header;
use buffer::fill;
use colours::good_length;
use copies::copy;
use iff::ids::{ANHD, BODY, CMAP, DLTA};
use refusal::Refusal;
use state::Sizes;

// Refuses a CMAP that doesn't have the length of whole colours, or more than a map has.
fn colours(cmap: &[u8]) -> Result<(), Refusal>
    ensures { result_of result ≡ answer (colours cmap.now) }
{
    if !good_length(cmap.len()) {
        return Err(Refusal::BadColours);
    }
    Ok(())
}

// Fills A with the picture that an ANHD and a DLTA make of zeros, with a CMAP beside them, all or nothing.
fn first_delta(
    a: &mut [u8],
    anhd: &[u8],
    cmap: &[u8],
    dlta: &[u8],
    sizes: Sizes,
) -> Result<(), Refusal>
    requires { frame_length sizes ≡ ok (length a.old) }
    ensures { Fills (first_delta anhd.now cmap.now dlta.now sizes) a.old (result_of result) a.new }
{
    let header = anhd::frame_header(true, sizes.row_bytes(), anhd)?;
    colours(cmap)?;
    delta::apply_first(a, dlta, sizes, header.items)?;
    Ok(())
}

// Fills A with the picture in a BODY, with a CMAP beside it, all or nothing.
fn first_body(
    a: &mut [u8],
    cmap: &[u8],
    body: &[u8],
    sizes: Sizes,
    packed: bool,
) -> Result<(), Refusal>
    requires { frame_length sizes ≡ ok (length a.old) }
    ensures { Fills (first_body cmap.now body.now sizes packed) a.old (result_of result) a.new }
{
    colours(cmap)?;
    body::unpack(a, body, sizes, packed)
}

// Fills A with the first picture, all or nothing.
pub(crate) fn first_picture(
    a: &mut [u8],
    chunks: &[u8],
    body: bool,
    header: Header,
) -> Result<(), Refusal>
    requires { frame_length header.sizes ≡ ok (length a.old) }
    ensures { Fills (first_picture chunks.now body header) a.old (result_of result) a.new }
{
    let cmap = iff::contents(chunks, CMAP);
    if body {
        return first_body(
            a,
            cmap,
            iff::contents(chunks, BODY),
            header.sizes,
            header.packed,
        );
    }
    first_delta(
        a,
        iff::contents(chunks, ANHD),
        cmap,
        iff::contents(chunks, DLTA),
        header.sizes,
    )
}

// Clears the map, and gives it the first picture's colours.
pub(crate) fn first_map(map: &mut [u8], chunks: &[u8])
    requires { length map.old ≡ MAP }
    ensures { map.new ≡ first_map chunks.now }
{
    fill(map, 0);
    copy(map, iff::contents(chunks, CMAP));
}
