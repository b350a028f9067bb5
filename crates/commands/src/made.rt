// A new image.
ghost use Rattle.std.specs.Prelude.{◌≡◌};
ghost use Rattle.commands.specs.Calls.{new};

use crate::codes;
use image::asked::given;
use image::parts::put_new;
use image::place::SIZE;
use model::{Refusal, TAKEN};
use table::Limits;

// Makes a new image: with a list store of these limits where the mark is not 0, else without one.
#[tactic(auto, unfolding(crate::specs::Calls::new, model::specs::Codes::returned, model::specs::Bytes::number))]
pub fn new(
    image: &mut [u8],
    list_store: u8,
    zone_limit: usize,
    window_limit: usize,
    build: u64,
    period: u64,
) -> u64
    ensures { let made = new image.old list_store zone_limit window_limit build period in
        (result ≡ made.returned) × (image.new ≡ made.image) }
{
    let limits = Limits::of(zone_limit, window_limit);
    if list_store != 0 && limits.is_none() || image.len() < SIZE {
        return codes::refusal(Refusal::BadLimits);
    }
    put_new(image, given(list_store, limits).flatten(), build, period);
    TAKEN
}
