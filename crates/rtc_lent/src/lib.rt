// The clock as one record that the caller lends, and that each call changes in its place. Who holds a clock reads it by value.
#![tactic(auto)]

ghost use Rattle.std.specs.Prelude.{◌≡◌};
ghost use Rattle.std.specs.Result.{result_map_both};
ghost use Rattle.model.specs.Clock.{reset_persist, load, set_utc_time, set_utc_time_persist, set_trusted_time_source_persist};
ghost use Rattle.rtc.specs.Meaning.{clock_of, option_source, reset_of, loaded_of, utc_time_set_of, utc_time_persisted_of, source_persisted_of};

use model::{Refusal, TimeGranularity, TimeSource};
use rtc::{Rtc, SourceChange, SourceSet, TrustedTimeSource, UtcTimePersisted, UtcTimeSet};

// What a persisting setting answers: whether something changed, and the moment that is to be stored.
#[derive(Clone, Copy)]
pub struct UtcTimePersistAnswer {
    pub changed: bool,
    pub stored: Option<u64>,
}

// Resets the clock; what is persisted for it is to be removed.
pub fn reset_persist(rtc: &mut Rtc, build: u64)
    ensures { reset_of rtc.new ≡ reset_persist build }
{
    *rtc = rtc.reset_persist(build);
}

// Loads what is persisted; a source with fabric index 0 is a bad record, and the clock stays as it is.
pub fn load_persist(
    rtc: &mut Rtc,
    build: u64,
    stored: Option<u64>,
    source: Option<TrustedTimeSource>,
) -> Result<(), Refusal>
    ensures { loaded_of (clock_of rtc.new) (result_map_both (λ done. rtc.new) (λ cause. cause) result)
        ≡ load build (clock_of rtc.old) stored (option_source source) }
{
    *rtc = rtc.load_persist(build, stored, source)?;
    Ok(())
}

// Sets the UTC time and anchors it at the tick, also where nothing changes; answers whether something did.
pub fn set_utc_time(
    rtc: &mut Rtc,
    utc_us: u64,
    granularity: TimeGranularity,
    source: TimeSource,
    tick: u64,
) -> bool
    ensures { utc_time_set_of (record { rtc = rtc.new; changed = result })
        ≡ set_utc_time (clock_of rtc.old) utc_us granularity source tick }
{
    let UtcTimeSet { rtc: next, changed } = rtc.set_utc_time(utc_us, granularity, source, tick);
    *rtc = next;
    changed
}

// Sets the UTC time, and has a moment stored that is a day or more from the persisted one.
pub fn set_utc_time_persist(
    rtc: &mut Rtc,
    utc_us: u64,
    granularity: TimeGranularity,
    source: TimeSource,
    tick: u64,
) -> UtcTimePersistAnswer
    ensures { utc_time_persisted_of (record { rtc = rtc.new; changed = result.changed; stored = result.stored })
        ≡ set_utc_time_persist (clock_of rtc.old) utc_us granularity source tick }
{
    let UtcTimePersisted {
        rtc: next,
        changed,
        stored,
    } = rtc.set_utc_time_persist(utc_us, granularity, source, tick);
    *rtc = next;
    UtcTimePersistAnswer { changed, stored }
}

// Installs or clears the trusted time source; answers what became of it, and with that what to store or remove.
pub fn set_trusted_time_source(rtc: &mut Rtc, source: Option<TrustedTimeSource>) -> SourceChange
    ensures { source_persisted_of (record { rtc = rtc.new; change = result })
        ≡ set_trusted_time_source_persist (clock_of rtc.old) (option_source source) }
{
    let SourceSet { rtc: next, change } = rtc.set_trusted_time_source(source);
    *rtc = next;
    change
}
