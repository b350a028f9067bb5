// Numbers of the list store.
ghost use Rattle.std.specs.Prelude.{◌≡◌};
ghost use Rattle.model.specs.Answers.{number_of};
ghost use Rattle.model.specs.Output.{leaves, truth};
ghost use Rattle.readings.specs.Readings.{zones_listed, windows_listed, zone_limit, window_limit, database, generation, usable, table_empty};

use crate::{lists, tell};
use table::layout::{window_count, window_limit, zone_count, zone_limit};

// TimeZoneDatabase None, by its number, as C reads it: no zone is known by its name.
const NO_DATABASE: u64 = 2;

// TimeZone: how many zones are listed.
#[tactic(auto, using(crate::proofs::Answered::zones_listed_is))]
pub fn time_zone_count(image: &[u8], value: &mut u64) -> u64
    ensures { let r = zones_listed image.now in
        (result ≡ number_of r) × (value.new ≡ leaves r (λ n. n) value.old) }
{
    tell(
        lists(image).map(|table| zone_count(table).max(1) as u64),
        value,
    )
}

// DSTOffset: how many windows there are.
#[tactic(auto, using(crate::proofs::Answered::windows_listed_is))]
pub fn dst_offset_count(image: &[u8], value: &mut u64) -> u64
    ensures { let r = windows_listed image.now in
        (result ≡ number_of r) × (value.new ≡ leaves r (λ n. n) value.old) }
{
    tell(lists(image).map(|table| window_count(table) as u64), value)
}

// TimeZoneListMaxSize.
#[tactic(auto, using(crate::proofs::Answered::zone_limit_is))]
pub fn time_zone_list_max_size(image: &[u8], value: &mut u64) -> u64
    ensures { let r = zone_limit image.now in
        (result ≡ number_of r) × (value.new ≡ leaves r (λ n. n) value.old) }
{
    tell(lists(image).map(|table| zone_limit(table) as u64), value)
}

// DSTOffsetListMaxSize.
#[tactic(auto, using(crate::proofs::Answered::window_limit_is))]
pub fn dst_offset_list_max_size(image: &[u8], value: &mut u64) -> u64
    ensures { let r = window_limit image.now in
        (result ≡ number_of r) × (value.new ≡ leaves r (λ n. n) value.old) }
{
    tell(lists(image).map(|table| window_limit(table) as u64), value)
}

// TimeZoneDatabase.
#[tactic(auto, using(crate::proofs::Answered::database_is))]
pub fn time_zone_database(image: &[u8], value: &mut u64) -> u64
    ensures { let r = database image.now in
        (result ≡ number_of r) × (value.new ≡ leaves r (λ n. n) value.old) }
{
    tell(lists(image).map(|_| NO_DATABASE), value)
}

// How many changes of the lists there were.
#[tactic(auto, using(crate::proofs::Answered::generation_is))]
pub fn generation(image: &[u8], value: &mut u64) -> u64
    ensures { let r = generation image.now in
        (result ≡ number_of r) × (value.new ≡ leaves r (λ n. n) value.old) }
{
    tell(
        lists(image).map(|table| table::layout::generation(table) as u64),
        value,
    )
}

// Whether some window is open or ends after now.
pub fn dst_usable(image: &[u8], utc: u64, value: &mut u64) -> u64
    ensures { let r = usable image.now utc in
        (result ≡ number_of r) × (value.new ≡ leaves r truth value.old) }
{
    tell(
        lists(image).map(move |table| lookups::windows::dst_usable(table, utc) as u64),
        value,
    )
}

// Whether there is no window at all.
#[tactic(auto, using(crate::proofs::Answered::table_empty_is))]
pub fn dst_table_empty(image: &[u8], value: &mut u64) -> u64
    ensures { let r = table_empty image.now in
        (result ≡ number_of r) × (value.new ≡ leaves r truth value.old) }
{
    tell(
        lists(image).map(|table| lookups::windows::dst_table_empty(table) as u64),
        value,
    )
}
