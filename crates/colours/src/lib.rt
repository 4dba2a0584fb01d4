// The colour map: how long it is, and which CMAPs may change it.
#![tactic(auto, unfolding(crate::specs::Colours::good_length))]

ghost use Rattle.std.specs.Prelude.{◌≡◌};
ghost use Rattle.colours.specs.Colours.{good_length};

// The bytes of a map: 256 colours of three bytes.
pub const MAP: usize = 768;

// Whether a CMAP may have so many bytes: whole colours, and no more than a map has.
pub fn good_length(n: usize) -> bool
    ensures { result ≡ good_length n }
{
    n % 3 == 0 && n <= MAP
}
