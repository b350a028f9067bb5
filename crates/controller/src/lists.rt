// Commands on the lists, their load and their reset.
// C calls these through crate `controller_c`: an answer is a number, and a value that may be missing has a mark beside it, 0 where it is not there.
ghost use Rattle.commands.specs.Calls.{load_lists, reset_lists, set_dst_offset, set_time_zone};
ghost use Rattle.image.specs.Asked.{given};
ghost use Rattle.std.specs.Prelude.{◌≡◌};

// SetTimeZone; the record to store is copied to the front of `out`, and `used` is its length.
pub fn timesync_set_time_zone(
    image: &mut [u8],
    request: &[u8],
    out: &mut [u8],
    used: &mut u64,
) -> u64
    ensures { let o = set_time_zone image.old request.now out.old used.old in
        (result ≡ o.returned)
        × (image.new ≡ o.image)
        × (out.new ≡ o.out)
        × (used.new ≡ o.used) }
{
    commands::lists::set_time_zone(image, request, out, used)
}

// SetDSTOffset; the same.
pub fn timesync_set_dst_offset(
    image: &mut [u8],
    request: &[u8],
    out: &mut [u8],
    used: &mut u64,
) -> u64
    ensures { let o = set_dst_offset image.old request.now out.old used.old in
        (result ≡ o.returned)
        × (image.new ≡ o.image)
        × (out.new ≡ o.out)
        × (used.new ≡ o.used) }
{
    commands::lists::set_dst_offset(image, request, out, used)
}

// Loads the lists from their record where `there` is not 0.
pub fn timesync_load_lists(image: &mut [u8], there: u8, stored: &[u8]) -> u64
    ensures { let o = load_lists image.old (given there stored.now) in
        (result ≡ o.returned)
        × (image.new ≡ o.image) }
{
    commands::lists::load_lists(image, there, stored)
}

// Empties the lists.
pub fn timesync_reset_lists(image: &mut [u8]) -> u64
    ensures { (result ≡ (reset_lists image.old).returned) × (image.new ≡ (reset_lists image.old).image) }
{
    commands::lists::reset_lists(image)
}
