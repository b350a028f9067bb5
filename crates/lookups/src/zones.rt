// Lookups in the list of zones.
ghost use Rattle.std.specs.Prelude.{◌≡◌};
ghost use Rattle.model.specs.Lookups.{active_zone, started};
ghost use Rattle.table.specs.Layout.{zone_at, lists_in};
ghost use Rattle.lookups.specs.Shown.{shown_by, active_index, zone_there, zone_listed_in};

use crate::{NamePlace, OFFSET, ZoneShown};
use table::layout::{MARK, MOST_NAME, NAME, NAME_LENGTH, START, ZONE_SIZE, ZONES, zones};
use word::or_zero::{i32_at, u64_at};

// The zone with index i, if it is there.
fn zone_shown(table: &[u8], i: usize) -> Option<ZoneShown>
    ensures { result ≡ zone_there table.now i }
{
    let place = zones(table).get(i)?;
    let name = (place[MARK] != 0).then(|| NamePlace {
        at: ZONES + ZONE_SIZE * i + NAME,
        len: (place[NAME_LENGTH] as usize).min(MOST_NAME),
    });
    Some(ZoneShown {
        offset: i32_at(place, OFFSET),
        valid_at: u64_at(place, START),
        name,
    })
}

// The start of the zone in a place is not after now.
fn has_started(place: &[u8; ZONE_SIZE], utc: u64) -> bool
    ensures { result ≡ started utc (zone_at place.now 0) }
{
    u64_at(place, START) <= utc
}

// The last zone that has started, looked for from the end.
pub fn active_time_zone(table: &[u8], utc: u64) -> ZoneShown
    ensures { result ≡ shown_by table.now (active_index table.now utc) }
{
    let active = zones(table)
        .iter()
        .rposition(|place| has_started(place, utc));
    active
        .and_then(|i| zone_shown(table, i))
        .unwrap_or_default()
}

// The offset of the active zone.
#[tactic(auto, using(crate::proofs::Views::active_shown))]
pub fn zone_offset(table: &[u8], utc: u64) -> i32
    ensures { result ≡ (active_zone (lists_in table.now) utc).offset }
{
    active_time_zone(table, utc).offset
}

// The listed zone at an index; an empty list shows one zone.
#[tactic(auto, using(crate::proofs::Places::listed_is))]
pub fn time_zone_at(table: &[u8], i: usize) -> Option<ZoneShown>
    ensures { result ≡ zone_listed_in table.now i }
{
    let blank = (i == 0).then_some(ZoneShown::default());
    zone_shown(table, i).or(blank)
}
