// A look of the timer.
ghost use Rattle.std.specs.Prelude.{List, ◌≡◌, ℕ};
ghost use Rattle.model.specs.Codes.{returned};
ghost use Rattle.transition_timer.specs.Meaning.{look_of, sleep_of};
ghost use Rattle.steps.specs.Steps.{emitted, sleep_kind, sleep_time, look_outcome};

use crate::codes::taken;
use image::codes::{EMIT_DST_STATUS, EMIT_DST_TABLE_EMPTY, EMIT_TIME_ZONE_STATUS};
use image::parts::{put_seen, rtc_in, seen_in};
use image::place::{SIZE, TABLE, has_lists, is_image};
use model::Refusal;
use transition_timer::{Look, Sleep};

// The sleep by its number, and how long it is; 0 where it has no length.
fn sleep_numbers(sleep: Sleep) -> (u64, u64)
    ensures { (result.0 ≡ sleep_kind (sleep_of sleep)) × (result.1 ≡ sleep_time (sleep_of sleep)) }
{
    match sleep {
        Sleep::Never => (0, 0),
        Sleep::UntilWoken => (1, 0),
        Sleep::AtMost(us) => (2, us),
    }
}

// What a look returns: 0 and the codes of its events, whatever they carry.
#[tactic(auto, unfolding(model::specs::Codes::returned, model::specs::Bytes::number))]
fn look_number(look: &Look) -> u64
    ensures { (t : List ℕ) → result ≡ returned 0 (emitted (look_of t look.now)) }
{
    taken(&[
        (look.zone_status.is_some(), EMIT_TIME_ZONE_STATUS),
        (look.dst_status.is_some(), EMIT_DST_STATUS),
        (look.dst_table_empty, EMIT_DST_TABLE_EMPTY),
    ])
}

// A look at a tick. What TimeZoneStatus and DSTStatus carry is 0 where they are not emitted.
#[tactic(auto, unfolding(crate::specs::Steps::look, image::specs::Layout::is_image, model::specs::Codes::returned, model::specs::Bytes::number))]
pub fn look(
    image: &mut [u8],
    tick: u64,
    name: &mut [u8],
    offset: &mut i32,
    named: &mut u64,
    name_len: &mut u64,
    dst_active: &mut u64,
    sleep: &mut u64,
    sleep_us: &mut u64,
) -> u64
    ensures { let o = look_outcome image.old tick name.old offset.old named.old name_len.old dst_active.old sleep.old sleep_us.old in
        (result ≡ o.returned) × (image.new ≡ o.image) × (name.new ≡ o.name)
        × (offset.new ≡ o.offset) × (named.new ≡ o.named) × (name_len.new ≡ o.name_length)
        × (dst_active.new ≡ o.active) × (sleep.new ≡ o.sleep) × (sleep_us.new ≡ o.sleep_time) }
{
    if !is_image(image) {
        return u64::from(Refusal::BadLimits);
    }
    let last = seen_in(image);
    let reading = rtc_in(image).utc_time(tick);
    let with_lists = has_lists(image);
    let table = &image[TABLE..SIZE];
    let shown = transition_timer::looks::look(last, with_lists.then_some(table), reading);
    let zone = shown.zone_status.unwrap_or_default();
    let Some(len) = zone.put_name(table, name) else {
        return u64::from(Refusal::NoSpace);
    };
    put_seen(image, shown.seen);
    *offset = zone.offset;
    *named = zone.name.is_some() as u64;
    *name_len = len as u64;
    *dst_active = shown.dst_status.unwrap_or_default() as u64;
    (*sleep, *sleep_us) = sleep_numbers(shown.sleep);
    look_number(&shown)
}
