// What a call returns: its number in the lowest byte, then the codes of its effects, the first lowest.
ghost use Rattle.std.specs.Prelude.{[], ◌∷◌, ◌++◌, ◌≡◌};
ghost use Rattle.model.specs.Basics.{when};
ghost use Rattle.model.specs.Numbers.{refusal_number};
ghost use Rattle.model.specs.Answers.{wake_timer, wake_client};
ghost use Rattle.model.specs.Codes.{returned};
ghost use Rattle.model.specs.Clock.{utc_reports};
ghost use Rattle.rtc.specs.Meaning.{moment_stored, stored_effects};
ghost use Rattle.table.specs.Left.{empties};

use image::codes::{
    EMIT_MISSING_TRUSTED_TIME_SOURCE, REMOVE_MOMENT, REMOVE_RECORD, REMOVE_SOURCE,
    REPORT_DST_OFFSET, REPORT_GRANULARITY, REPORT_TIME_SOURCE, REPORT_TIME_ZONE,
    REPORT_TRUSTED_TIME_SOURCE, REPORT_UTC_TIME, STORE_MOMENT, STORE_RECORD, STORE_SOURCE,
    WAKE_CLIENT, WAKE_TIMER,
};
use model::Refusal;
use rtc::SourceChange;

// ## What calls that were taken return

// The codes of effects above a number's lowest byte, the first lowest.
macro_rules! effects {
    () => { 0 };
    ($first:expr $(, $rest:expr)*) => { 256 * ($first + effects!($($rest),*)) };
}

// Only the timer is woken.
const TIMER_WOKEN: u64 = effects!(WAKE_TIMER);

// A setting of the clock: alone, with the timer, and with the stored moment.
pub(crate) const UTC_REPORTED: u64 = effects!(
    REPORT_UTC_TIME,
    REPORT_GRANULARITY,
    REPORT_TIME_SOURCE
);

const UTC_REPORTED_WOKEN: u64 = effects!(
    REPORT_UTC_TIME,
    REPORT_GRANULARITY,
    REPORT_TIME_SOURCE,
    WAKE_TIMER
);

const UTC_REPORTED_STORED: u64 = effects!(
    REPORT_UTC_TIME,
    REPORT_GRANULARITY,
    REPORT_TIME_SOURCE,
    STORE_MOMENT
);

// SetTrustedTimeSource: the source is equal, another, or none.
const SOURCE_SAME: u64 = effects!(WAKE_CLIENT);

const SOURCE_STORED: u64 = effects!(REPORT_TRUSTED_TIME_SOURCE, STORE_SOURCE, WAKE_CLIENT);

const SOURCE_REMOVED: u64 = effects!(
    REPORT_TRUSTED_TIME_SOURCE,
    EMIT_MISSING_TRUSTED_TIME_SOURCE,
    REMOVE_SOURCE,
    WAKE_CLIENT
);

// A reset of the clock: both its records are removed.
pub(crate) const CLOCK_RESET: u64 = effects!(REMOVE_MOMENT, REMOVE_SOURCE);

// SetTimeZone and SetDSTOffset that were accepted.
pub(crate) const TIME_ZONE_SET: u64 = effects!(
    WAKE_TIMER,
    STORE_RECORD,
    REPORT_TIME_ZONE,
    REPORT_DST_OFFSET
);

pub(crate) const DST_OFFSET_SET: u64 = effects!(WAKE_TIMER, STORE_RECORD, REPORT_DST_OFFSET);

// A reset of the lists: the record is removed before the timer is woken.
pub(crate) const LISTS_RESET: u64 = effects!(REMOVE_RECORD, WAKE_TIMER);

// SetUTCTime: what is reported, then the timer.
#[tactic(auto, unfolding(model::specs::Codes::returned, model::specs::Bytes::number))]
pub(crate) fn utc_time(wakes: bool) -> u64
    ensures { result ≡ returned 0 (utc_reports ++ when wakes wake_timer) }
{
    if wakes {
        UTC_REPORTED_WOKEN
    } else {
        UTC_REPORTED
    }
}

// A setting of the clock: what is reported, then the moment that is stored.
#[tactic(auto, unfolding(model::specs::Codes::returned, model::specs::Bytes::number))]
pub(crate) fn setting(stored: Option<u64>) -> u64
    ensures { result ≡ returned 0 (utc_reports ++ moment_stored stored) }
{
    if stored.is_some() {
        UTC_REPORTED_STORED
    } else {
        UTC_REPORTED
    }
}

// SetTrustedTimeSource: what becomes of the source, then the client.
#[tactic(auto, unfolding(model::specs::Codes::returned, model::specs::Bytes::number))]
pub(crate) fn trusted_source(change: SourceChange) -> u64
    ensures { result ≡ returned 0 (stored_effects change ++ (wake_client ∷ [])) }
{
    match change {
        SourceChange::Same => SOURCE_SAME,
        SourceChange::Installed(_) => SOURCE_STORED,
        SourceChange::Cleared => SOURCE_REMOVED,
    }
}

// A refusal: no more than its number.
#[tactic(auto, unfolding(model::specs::Codes::returned, model::specs::Bytes::number))]
pub(crate) fn refusal(cause: Refusal) -> u64
    ensures { result ≡ returned (refusal_number cause) [] }
{
    u64::from(cause)
}

// A refused SetDSTOffset: its number, and the timer where the refusal leaves no window.
#[tactic(auto, unfolding(model::specs::Codes::returned, model::specs::Bytes::number))]
pub(crate) fn dst_offset_refused(cause: Refusal) -> u64
    ensures { result ≡ returned (refusal_number cause) (when (empties cause) wake_timer) }
{
    let number = u64::from(cause);
    if table::empties(cause) {
        number + TIMER_WOKEN
    } else {
        number
    }
}
