// Local time: UTC and the offsets of the active zone and of the last active window.
#![tactic(auto)]

ghost use Rattle.std.specs.Prelude.{◌≡◌, option_map, option_copied};
ghost use Rattle.model.specs.LocalTime.{shown, local_moment, local_time};
ghost use Rattle.rtc.specs.Meaning.{reading_of};
ghost use Rattle.table.specs.Layout.{lists_in};
ghost use Rattle.local_time.specs.Meaning.{local_time_of};

use lookups::windows::{dst_usable, last_active_dst_offset};
use lookups::zones::zone_offset;
use model::Refusal;
use rtc::UtcTime;

// A second in microseconds.
const SECOND: i64 = 1_000_000;

// UTC moved by both offsets, held at 0 and at the largest number; the window's is that of the last active window, not of the first.
#[tactic(auto, unfolding(model::specs::LocalTime::shown, model::specs::LocalTime::combined_offset))]
fn shown(table: &[u8], utc: u64) -> u64
    ensures { result ≡ shown (lists_in table.now) utc }
{
    let zone = i64::from(zone_offset(table, utc));
    let window = last_active_dst_offset(table, utc).map_or(0, i64::from);
    utc.saturating_add_signed((zone + window) * SECOND)
}

// What the lists show: null where no window is usable, active or not.
fn local_moment(table: &[u8], utc: u64) -> Option<u64>
    ensures { result ≡ local_moment (lists_in table.now) utc }
{
    dst_usable(table, utc).then(|| shown(table, utc))
}

// Local time at a reading of the clock: an unreliable one comes first. The table is the list store, where there is one.
#[tactic(auto, unfolding(model::specs::LocalTime::local_time))]
pub fn local_time(reading: UtcTime, table: Option<&[u8]>) -> Result<Option<u64>, Refusal>
    ensures { local_time_of result ≡ local_time (reading_of reading) (option_map (λ t. lists_in t) (option_copied table.entry)) }
{
    let Some(utc) = reading.reliable() else {
        return Ok(None);
    };
    let table = table.ok_or(Refusal::AttributeNotFound)?;
    Ok(local_moment(table, utc))
}
