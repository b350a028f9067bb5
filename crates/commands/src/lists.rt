// Commands on the lists, their load and their reset.
ghost use Rattle.std.specs.Prelude.{◌≡◌, ℕ, List, Result};
ghost use Rattle.model.specs.declared.Refusal.{Refusal};
ghost use Rattle.image.specs.Asked.{given};
ghost use Rattle.commands.specs.Calls.{set_time_zone, set_dst_offset, load_lists, reset_lists};
ghost use Rattle.commands.specs.Taken.{check_lists, IsCall, Stores};

use crate::codes;
use crate::codes::{DST_OFFSET_SET, LISTS_RESET, TIME_ZONE_SET};
use image::place::{SIZE, TABLE, has_lists, is_image};
use model::{Refusal, TAKEN};

// Whether a command on the lists of these bytes is taken up, before its request is read. Crate `readings` lends the table where it asks the
// same; here it is changed, and without lists the refusal is another.
fn check_lists(image: &[u8]) -> Result<(), Refusal>
    ensures { result ≡ check_lists image.now }
{
    if !is_image(image) {
        return Err(Refusal::BadLimits);
    }
    if !has_lists(image) {
        return Err(Refusal::CommandNotFound);
    }
    Ok(())
}

// A command on the lists by its call on the table, which takes the room for the record. The record is copied to the front of `out`, and its
// length is answered.
fn set_by<F: FnOnce(&mut [u8], usize) -> Result<(), Refusal>>(
    image: &mut [u8],
    out: &mut [u8],
    call: F,
) -> Result<usize, Refusal>
    requires { F.IsAlwaysCallable call }
    ensures { (says : List ℕ → ℕ → Result (Unit {0}) Refusal) (leaves : List ℕ → ℕ → List ℕ)
        → IsCall says leaves (λ t room said u. F.post call t room said u) → Stores says leaves image.old out.old result image.new out.new }
{
    check_lists(image)?;
    let table = &mut image[TABLE..SIZE];
    call(table, out.len())?;
    table::write::put(table, out).ok_or(Refusal::NoSpace)
}

// SetTimeZone; the record to store is copied to the front of `out`, and `used` is its length.
pub fn set_time_zone(image: &mut [u8], request: &[u8], out: &mut [u8], used: &mut u64) -> u64
    ensures { let set = set_time_zone image.old request.now out.old used.old in
        (result ≡ set.returned) × (image.new ≡ set.image) × (out.new ≡ set.out) × (used.new ≡ set.used) }
{
    let call = |table: &mut [u8], room| table::set_time_zone(table, request, room);
    match set_by(image, out, call) {
        Ok(n) => {
            *used = n as u64;
            TIME_ZONE_SET
        }
        Err(cause) => codes::refusal(cause),
    }
}

// SetDSTOffset; the same. What is left of both is their call, their effects and what a refusal asks for.
pub fn set_dst_offset(image: &mut [u8], request: &[u8], out: &mut [u8], used: &mut u64) -> u64
    ensures { let set = set_dst_offset image.old request.now out.old used.old in
        (result ≡ set.returned) × (image.new ≡ set.image) × (out.new ≡ set.out) × (used.new ≡ set.used) }
{
    let call = |table: &mut [u8], room| table::set_dst_offset(table, request, room);
    match set_by(image, out, call) {
        Ok(n) => {
            *used = n as u64;
            DST_OFFSET_SET
        }
        Err(cause) => codes::dst_offset_refused(cause),
    }
}

// Loads the lists from their record where `there` is not 0.
#[tactic(auto, unfolding(crate::specs::Calls::lists_loaded, model::specs::Handler::load_lists, model::specs::Codes::returned, model::specs::Bytes::number))]
pub fn load_lists(image: &mut [u8], there: u8, stored: &[u8]) -> u64
    ensures { let loaded = load_lists image.old (given there stored.now) in (result ≡ loaded.returned) × (image.new ≡ loaded.image) }
{
    if !is_image(image) {
        return codes::refusal(Refusal::BadLimits);
    }
    if !has_lists(image) || there == 0 {
        return TAKEN;
    }
    match table::load(&mut image[TABLE..SIZE], stored) {
        Ok(()) => TAKEN,
        Err(cause) => codes::refusal(cause),
    }
}

// Empties the lists.
#[tactic(auto, unfolding(crate::specs::Calls::lists_reset, model::specs::Handler::reset_lists, model::specs::Codes::returned, model::specs::Bytes::number))]
pub fn reset_lists(image: &mut [u8]) -> u64
    ensures { let reset = reset_lists image.old in (result ≡ reset.returned) × (image.new ≡ reset.image) }
{
    if !is_image(image) {
        return codes::refusal(Refusal::BadLimits);
    }
    if !has_lists(image) {
        return TAKEN;
    }
    table::factory_reset(&mut image[TABLE..SIZE]);
    LISTS_RESET
}
