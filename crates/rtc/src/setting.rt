// Setting the UTC time.
ghost use Rattle.std.specs.Prelude.{◌≡◌};
ghost use Rattle.model.specs.Clock.{lowered, set_utc_time, set_utc_time_persist};
ghost use Rattle.rtc.specs.Meaning.{clock_of, utc_time_set_of, utc_time_persisted_of};

use crate::{Rtc, UtcTimePersisted, UtcTimeSet};
use model::{TimeGranularity, TimeSource};

// A day in microseconds.
const DELTA: u64 = 24 * 60 * 60 * 1_000_000;

impl Rtc {
    // Sets the UTC time and anchors it at the tick, also where nothing changes.
    #[tactic(auto, using(crate::proofs::Same::same_time_source), unfolding(model::specs::Clock::changes, model::specs::Clock::set_utc_time))]
    pub fn set_utc_time(
        self,
        utc_us: u64,
        granularity: TimeGranularity,
        source: TimeSource,
        tick: u64,
    ) -> UtcTimeSet
        ensures { utc_time_set_of result ≡ set_utc_time (clock_of self) utc_us granularity source tick }
    {
        let granularity = stepped(granularity);
        UtcTimeSet {
            rtc: Rtc {
                utc_us,
                granularity,
                source,
                anchor: Some(tick),
                ..self
            },
            changed: self.utc_us != utc_us
                || self.granularity != granularity
                || self.source != source,
        }
    }

    // Sets the UTC time, and has a moment stored that is a day or more from the persisted one.
    #[tactic(auto, unfolding(model::specs::Clock::set_utc_time_persist, model::specs::Clock::set_utc_time, model::specs::Clock::a_day_apart))]
    pub fn set_utc_time_persist(
        self,
        utc_us: u64,
        granularity: TimeGranularity,
        source: TimeSource,
        tick: u64,
    ) -> UtcTimePersisted
        ensures { utc_time_persisted_of result ≡ set_utc_time_persist (clock_of self) utc_us granularity source tick }
    {
        let stored = (self.utc_us_persisted.abs_diff(utc_us) >= DELTA).then_some(utc_us);
        let UtcTimeSet { rtc, changed } = self.set_utc_time(utc_us, granularity, source, tick);
        UtcTimePersisted {
            rtc: Rtc {
                utc_us_persisted: stored.unwrap_or(rtc.utc_us_persisted),
                ..rtc
            },
            changed,
            stored,
        }
    }
}

// The granularity one step lower, and never lower than minutes.
fn stepped(granularity: TimeGranularity) -> TimeGranularity
    ensures { result ≡ lowered granularity }
{
    match granularity {
        TimeGranularity::Microseconds => TimeGranularity::Milliseconds,
        TimeGranularity::Milliseconds => TimeGranularity::Seconds,
        TimeGranularity::Seconds | TimeGranularity::Minutes | TimeGranularity::NoTime =>
            TimeGranularity::Minutes,
    }
}
