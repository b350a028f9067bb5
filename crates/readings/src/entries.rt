// Entries of the lists, and what is active of them at a moment. A call with several outputs matches the table itself: one function over
// these three would take as many outputs as all of them have, and be no shorter.
ghost use Rattle.std.specs.Prelude.{◌≡◌, ◌≤◌, cond, length, None, Some};
ghost use Rattle.model.specs.Answers.{number_of};
ghost use Rattle.model.specs.Output.{leaves, leaves_copy, mark_of, or_zero, or_zeroℤ, name_or, too_short, copied_over};
ghost use Rattle.table.specs.Layout.{table_size};
ghost use Rattle.lookups.specs.Laws.{EndsInside, shown_name};
ghost use Rattle.readings.specs.Readings.{zone_entry, zone_name, window_entry, active_zone, now_name, active_offset};
ghost use Rattle.readings.specs.Stored.{showing, taken};

use crate::{lists, tell_option};
use lookups::ZoneShown;
use lookups::windows::dst_offset_at;
use lookups::zones::time_zone_at;
use model::{Refusal, TAKEN};

// The name of a zone that a table shows, to the front of `name` where it has room, and how long it is. Such a name stands whole in the table,
// so where it stands is not tested: by `ZoneShown::put_name` (tried), which takes any zone, a listed entry takes more than the Rust's.
#[tactic(auto, using(word::proofs::Writes::placed_front, crate::proofs::Whole::whole_name, std::proofs::lemmas::Grind::common_steps))]
fn put_name(table: &[u8], zone: ZoneShown, name: &mut [u8]) -> Option<usize>
    requires whole { table_size ≤ length table.now }
    requires inside { EndsInside zone }
    ensures length { let n = name_or (shown_name table.now zone) in
        result ≡ cond (too_short (length name.old) n) None (Some (length n)) }
    ensures copied { let n = name_or (shown_name table.now zone) in
        name.new ≡ cond (too_short (length name.old) n) name.old (copied_over n name.old) }
{
    let Some(place) = zone.name else {
        return Some(0);
    };
    let stored = &table[place.at..place.at + place.len];
    word::put(name, 0, stored).then_some(place.len)
}

// A zone that a table shows, where its name has room: that to the front of `name`, and the rest of it.
fn show_zone(
    table: &[u8],
    zone: ZoneShown,
    name: &mut [u8],
    offset: &mut i32,
    named: &mut u64,
    name_len: &mut u64,
) -> Result<(), Refusal>
    requires whole { table_size ≤ length table.now }
    requires inside { EndsInside zone }
    ensures { let r = showing table.now zone (length name.old) in
        (result ≡ taken r)
        × (name.new ≡ leaves_copy r now_name name.old)
        × (offset.new ≡ leaves r (λ z. z.offset) offset.old)
        × (named.new ≡ leaves r (λ z. mark_of z.name) named.old)
        × (name_len.new ≡ leaves r (λ z. length (now_name z)) name_len.old) }
{
    let len = put_name(table, zone, name).ok_or(Refusal::NoSpace)?;
    *offset = zone.offset;
    *named = zone.name.is_some() as u64;
    *name_len = len as u64;
    Ok(())
}

// TimeZone: one of the listed zones; its name is copied to the front of `name`.
#[tactic(auto, using(crate::proofs::Answered::zone_none, crate::proofs::Answered::zone_some, crate::proofs::Whole::table_whole, crate::proofs::Whole::listed_inside))]
pub fn time_zone(
    image: &[u8],
    index: usize,
    name: &mut [u8],
    offset: &mut i32,
    valid_at: &mut u64,
    named: &mut u64,
    name_len: &mut u64,
) -> u64
    ensures { let r = zone_entry image.now index (length name.old) in
        (result ≡ number_of r)
        × (name.new ≡ leaves_copy r zone_name name.old)
        × (offset.new ≡ leaves r (λ z. z.offset) offset.old)
        × (valid_at.new ≡ leaves r (λ z. z.start) valid_at.old)
        × (named.new ≡ leaves r (λ z. mark_of z.name) named.old)
        × (name_len.new ≡ leaves r (λ z. length (zone_name z)) name_len.old) }
{
    let table = match lists(image) {
        Ok(table) => table,
        Err(cause) => return u64::from(cause),
    };
    let Some(zone) = time_zone_at(table, index) else {
        return u64::from(Refusal::ConstraintError);
    };
    if let Err(cause) = show_zone(table, zone, name, offset, named, name_len) {
        return u64::from(cause);
    }
    *valid_at = zone.valid_at;
    TAKEN
}

// DSTOffset: one of the windows.
#[tactic(auto, using(crate::proofs::Answered::window_none, crate::proofs::Answered::window_some))]
pub fn dst_offset(
    image: &[u8],
    index: usize,
    offset: &mut i32,
    valid_starting: &mut u64,
    closed: &mut u64,
    valid_until: &mut u64,
) -> u64
    ensures { let r = window_entry image.now index in
        (result ≡ number_of r)
        × (offset.new ≡ leaves r (λ w. w.offset) offset.old)
        × (valid_starting.new ≡ leaves r (λ w. w.start) valid_starting.old)
        × (closed.new ≡ leaves r (λ w. mark_of w.until) closed.old)
        × (valid_until.new ≡ leaves r (λ w. or_zero w.until) valid_until.old) }
{
    let table = match lists(image) {
        Ok(table) => table,
        Err(cause) => return u64::from(cause),
    };
    let Some(window) = dst_offset_at(table, index) else {
        return u64::from(Refusal::ConstraintError);
    };
    *offset = window.offset;
    *valid_starting = window.valid_starting;
    *closed = window.valid_until.is_some() as u64;
    *valid_until = window.valid_until.unwrap_or(0);
    TAKEN
}

// The active zone; its name is copied to the front of `name`.
#[tactic(auto, using(crate::proofs::Answered::active_zone_answers, crate::proofs::Whole::table_whole, crate::proofs::Whole::active_inside))]
pub fn active_time_zone(
    image: &[u8],
    utc: u64,
    name: &mut [u8],
    offset: &mut i32,
    named: &mut u64,
    name_len: &mut u64,
) -> u64
    ensures { let r = active_zone image.now utc (length name.old) in
        (result ≡ number_of r)
        × (name.new ≡ leaves_copy r now_name name.old)
        × (offset.new ≡ leaves r (λ z. z.offset) offset.old)
        × (named.new ≡ leaves r (λ z. mark_of z.name) named.old)
        × (name_len.new ≡ leaves r (λ z. length (now_name z)) name_len.old) }
{
    let table = match lists(image) {
        Ok(table) => table,
        Err(cause) => return u64::from(cause),
    };
    let zone = lookups::zones::active_time_zone(table, utc);
    match show_zone(table, zone, name, offset, named, name_len) {
        Ok(()) => TAKEN,
        Err(cause) => u64::from(cause),
    }
}

// The offset of the first active window, or that none is active.
pub fn active_dst_offset(image: &[u8], utc: u64, there: &mut u64, offset: &mut i32) -> u64
    ensures { let r = active_offset image.now utc in
        (result ≡ number_of r) × (there.new ≡ leaves r mark_of there.old) × (offset.new ≡ leaves r or_zeroℤ offset.old) }
{
    let active = lists(image).map(move |table| lookups::windows::active_dst_offset(table, utc));
    tell_option(active, 0, there, offset)
}
