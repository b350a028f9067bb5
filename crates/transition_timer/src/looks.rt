// A look of the timer.
ghost use Rattle.std.specs.Prelude.{◌≡◌, option_copied};
ghost use Rattle.transition_timer.specs.Meaning.{quiet_by, look_at, look_by};

use crate::due::{active_due, empty_due, sleep_until, zone_due};
use crate::{Look, Seen, Sleep};
use lookups::transitions::next_transition;
use lookups::windows::{active_dst_offset, dst_usable};
use lookups::zones::active_time_zone;
use rtc::UtcTime;

// A look that keeps what was seen and emits nothing.
fn quiet(last: Option<Seen>, sleep: Sleep) -> Look
    ensures { result ≡ quiet_by last sleep }
{
    Look {
        seen: last,
        zone_status: None,
        dst_status: None,
        dst_table_empty: false,
        sleep,
    }
}

// A look at a reliable clock.
fn look_at(last: Option<Seen>, table: &[u8], utc: u64) -> Look
    ensures { result ≡ look_at last table.now utc }
{
    let zone = active_time_zone(table, utc);
    let new = Seen {
        offset: zone.offset,
        active: active_dst_offset(table, utc).is_some(),
        usable: dst_usable(table, utc),
    };
    Look {
        seen: Some(new),
        zone_status: zone_due(last, new).then_some(zone),
        dst_status: active_due(last, new).then_some(new.active),
        dst_table_empty: empty_due(last, new),
        sleep: sleep_until(next_transition(table, utc), utc),
    }
}

// A look: with no list store the timer never looks; on an unreliable clock it keeps what it saw and waits.
#[tactic(auto, unfolding(crate::specs::Meaning::look_by))]
pub fn look(last: Option<Seen>, table: Option<&[u8]>, reading: UtcTime) -> Look
    ensures { result ≡ look_by last (option_copied table.entry) reading }
{
    let Some(table) = table else {
        return quiet(last, Sleep::Never);
    };
    let Some(utc) = reading.reliable() else {
        return quiet(last, Sleep::UntilWoken);
    };
    look_at(last, table, utc)
}
