// The entry points, as a library. Each works on numbers, on slices, and on one image that the caller lends. The rules stand in the crates
// below; an entry point only hands over. Crate `controller_c` exports them to C, since a crate is a library or an archive, and the program
// `vectors` calls them here: so an answer is a number, and a value that may be missing
// has a mark beside it, 0 where it is not there.
#![tactic(auto)]

pub mod attributes;
pub mod client;
pub mod clock;
pub mod entries;
pub mod lists;

ghost use Rattle.std.specs.Prelude.{◌≡◌};
ghost use Rattle.image.specs.Layout.{image_size};

// How many bytes an image has.
pub fn timesync_image_size() -> u64
    ensures { result ≡ image_size }
{
    image::place::SIZE as u64
}
