// The entry points for C. Each works on numbers, on slices, and on one image that the caller lends; include/timesync.h says how to call
// them. Each hands over to the function of the same name in crate `controller`, and says what that says. C calls them: so an answer is a
// number, and a value that may be missing has a mark beside it, 0 where it is not there.
#![tactic(auto)]

mod attributes;
mod client;
mod clock;
mod entries;
mod lists;

ghost use Rattle.std.specs.Prelude.{◌≡◌};
ghost use Rattle.image.specs.Layout.{image_size};

// How many bytes an image has.
#[unsafe(no_mangle)]
pub extern "C" fn timesync_image_size() -> u64
    ensures { result ≡ image_size }
{
    controller::timesync_image_size()
}
