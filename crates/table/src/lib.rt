// The list store (the Rust's `TimeZoneStore`) in a table of lent bytes: limits, generation and both lists, each at its place and
// changed in place.
#![tactic(auto)]

mod entries;
mod kind;
pub mod layout;
pub mod write;

ghost use Rattle.std.specs.Prelude.{◌≡◌, ◌&&◌, nat_le, []};
ghost use Rattle.model.specs.Rules.{allowed};
ghost use Rattle.table.specs.Layout.{with_windows, counted};
ghost use Rattle.table.specs.Limits.{limits_of};
ghost use Rattle.table.specs.Left.{new_said, new_left, time_zone_said, time_zone_left, empties, dst_offset_said, dst_offset_left, load_said, load_left, reset_left};

use layout::{MOST_WINDOWS, MOST_ZONES, SIZE, WINDOW_COUNT, ZONE_COUNT, count_change};
use model::Refusal;
use word::or_zero::put_u8;

// The limits of a list store: how many zones it takes, and how many windows.
#[derive(Clone, Copy, PartialEq, Eq)]
pub struct Limits {
    pub zones: u8,
    pub windows: u8,
}

impl Limits {
    // These limits, where a store can have them.
    #[tactic(auto, unfolding(model::specs::Rules::allowed))]
    pub fn of(zone_limit: usize, window_limit: usize) -> Option<Limits>
        ensures { result ≡ limits_of (record { zone_limit = zone_limit; window_limit = window_limit }) }
    {
        allowed(zone_limit, window_limit).then(|| Limits {
            zones: zone_limit as u8,
            windows: window_limit as u8,
        })
    }
}

// Whether a limit is one that `most` places allow.
fn is_limit(limit: usize, most: usize) -> bool
    ensures { result ≡ (nat_le 1 limit && nat_le limit most) }
{
    (1..=most).contains(&limit)
}

// Whether a store can be made with these limits.
#[tactic(auto, unfolding(model::specs::Rules::allowed))]
pub fn allowed(zone_limit: usize, window_limit: usize) -> bool
    ensures { result ≡ allowed (record { zone_limit = zone_limit; window_limit = window_limit }) }
{
    is_limit(zone_limit, MOST_ZONES) && is_limit(window_limit, MOST_WINDOWS)
}

// Makes a new store: these limits, no zone, no window and generation 0. The limits come one by one, as C hands them over.
#[tactic(auto, unfolding(crate::specs::Left::makes))]
pub fn new(table: &mut [u8], zone_limit: usize, window_limit: usize) -> Result<(), Refusal>
    ensures { (result ≡ new_said table.old (record { zone_limit = zone_limit; window_limit = window_limit }))
        × (table.new ≡ new_left table.old (record { zone_limit = zone_limit; window_limit = window_limit })) }
{
    if table.len() < SIZE {
        return Err(Refusal::BadLimits);
    }
    let limits = Limits::of(zone_limit, window_limit).ok_or(Refusal::BadLimits)?;
    layout::put_new(table, limits);
    Ok(())
}

// Leaves no window, and counts the change.
#[tactic(auto, unfolding(crate::specs::Layout::with_windows, crate::specs::Layout::put_entries))]
fn drop_windows(table: &mut [u8])
    ensures { table.new ≡ counted (with_windows table.old []) }
{
    put_u8(table, WINDOW_COUNT, 0);
    count_change(table);
}

// SetTimeZone, with room for a record of so many bytes: the zones of an accepted request are copied to their places, and there is no
// window any more.
#[tactic(auto, using(crate::proofs::Room::zones_by_room, crate::proofs::Requests::left_by_zones), unfolding(crate::specs::Left::time_zone_said, crate::specs::Left::time_zone_left))]
pub fn set_time_zone(table: &mut [u8], request: &[u8], room: usize) -> Result<(), Refusal>
    ensures { (result ≡ time_zone_said table.old request.now room)
        × (table.new ≡ time_zone_left table.old request.now room) }
{
    rules::set_time_zone(request, layout::zone_limit(table))?;
    // The record is the request and an empty section of windows, one byte.
    if room <= request.len() {
        return Err(Refusal::NoSpace);
    }
    entries::put_zones(table, request, 0);
    drop_windows(table);
    Ok(())
}

// Whether windows that are turned down for this cause leave none.
pub fn empties(cause: Refusal) -> bool
    ensures { result ≡ empties cause }
{
    matches!(cause, Refusal::ConstraintError | Refusal::ResourceExhausted)
}

// SetDSTOffset, with room for a record of so many bytes: the windows of an accepted request are copied to their places; turned down for
// what they say they leave none.
#[tactic(auto, using(crate::proofs::Bounds::zones_most, crate::proofs::Room::windows_by_room, crate::proofs::Requests::left_by_windows), unfolding(crate::specs::Left::dst_offset_said, crate::specs::Left::dst_offset_left))]
pub fn set_dst_offset(table: &mut [u8], request: &[u8], room: usize) -> Result<(), Refusal>
    ensures { (result ≡ dst_offset_said table.old request.now room)
        × (table.new ≡ dst_offset_left table.old request.now room) }
{
    if let Err(cause) = rules::set_dst_offset(request, layout::window_limit(table)) {
        if empties(cause) {
            drop_windows(table);
        }
        return Err(cause);
    }
    // The record is the section of zones and the request.
    if room < write::zones_length(table) + request.len() {
        return Err(Refusal::NoSpace);
    }
    entries::put_windows(table, request, 0);
    count_change(table);
    Ok(())
}

// Loads a stored record: the entries of an accepted one are copied to their places, and no change is counted; else nothing changes.
#[tactic(auto, using(crate::proofs::Records::left_by_load), unfolding(crate::specs::Left::load_said, crate::specs::Left::load_left))]
pub fn load(table: &mut [u8], stored: &[u8]) -> Result<(), Refusal>
    ensures { (result ≡ load_said table.old stored.now) × (table.new ≡ load_left table.old stored.now) }
{
    rules::stored(
        stored,
        layout::zone_limit(table),
        layout::window_limit(table),
    )?;
    let at = entries::put_zones(table, stored, 0);
    entries::put_windows(table, stored, at);
    Ok(())
}

// Factory reset: no zone and no window.
#[tactic(auto, unfolding(crate::specs::Left::reset_left, crate::specs::Layout::with_zones, crate::specs::Layout::put_entries))]
pub fn factory_reset(table: &mut [u8])
    ensures { table.new ≡ reset_left table.old }
{
    put_u8(table, ZONE_COUNT, 0);
    drop_windows(table);
}
