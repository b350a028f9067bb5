// The clock of a node, by value: the last known UTC time, the current UTC time once it is set, and the trusted time source.
// A call that changes the clock answers the next one, beside what decides the reports, the events and what is stored.
#![tactic(auto)]

ghost use Rattle.std.specs.Prelude.{◌≡◌};
ghost use Rattle.model.specs.Clock.{fresh, reset_persist, reading, reliable_moment, granularity_read, source_read};
ghost use Rattle.rtc.specs.Meaning.{clock_of, reading_of, reset_of};

use model::{TimeGranularity, TimeSource};

mod load;
mod setting;
mod trusted;

// The fabric that installed the source, a node of that fabric, and the endpoint of the node that tells the time.
#[derive(Clone, Copy, Default, PartialEq, Eq)]
pub struct TrustedTimeSource {
    pub fab_idx: u8,
    pub node_id: u64,
    pub endpoint: u16,
}

#[derive(Clone, Copy)]
pub struct Rtc {
    // Last known UTC time, in microseconds since the Matter epoch.
    pub utc_us: u64,
    // The UTC time that was last persisted.
    pub utc_us_persisted: u64,
    pub granularity: TimeGranularity,
    pub source: TimeSource,
    // The tick of the last setting; missing until the clock is set.
    pub anchor: Option<u64>,
    pub trusted_time_source: Option<TrustedTimeSource>,
}

// The current UTC time, or the last known one where the clock is not set.
#[derive(Clone, Copy)]
pub enum UtcTime {
    Reliable(u64),
    LastKnown(u64),
}

// The clock after a setting, which is always to be reported, and whether something changed.
#[derive(Clone, Copy)]
pub struct UtcTimeSet {
    pub rtc: Rtc,
    pub changed: bool,
}

// The same, with the moment that is to be stored.
#[derive(Clone, Copy)]
pub struct UtcTimePersisted {
    pub rtc: Rtc,
    pub changed: bool,
    pub stored: Option<u64>,
}

// What became of the trusted time source. In flash an installed one is stored, and a cleared one removed.
#[derive(Clone, Copy)]
pub enum SourceChange {
    Same,
    Installed(TrustedTimeSource),
    Cleared,
}

#[derive(Clone, Copy)]
pub struct SourceSet {
    pub rtc: Rtc,
    pub change: SourceChange,
}

impl UtcTime {
    // The moment of a reliable reading.
    pub fn reliable(self) -> Option<u64>
        ensures { result ≡ reliable_moment (reading_of self) }
    {
        match self {
            UtcTime::Reliable(utc_us) => Some(utc_us),
            UtcTime::LastKnown(_) => None,
        }
    }
}

impl Rtc {
    // A clock that stands at the build moment and knows no time.
    pub fn new(build: u64) -> Rtc
        ensures { clock_of result ≡ fresh build }
    {
        Rtc {
            utc_us: build,
            utc_us_persisted: build,
            granularity: TimeGranularity::NoTime,
            source: TimeSource::None,
            anchor: None,
            trusted_time_source: None,
        }
    }

    // Resets the clock; what is persisted for it is to be removed.
    #[tactic(auto, unfolding(model::specs::Clock::reset_persist))]
    pub fn reset_persist(self, build: u64) -> Rtc
        ensures { reset_of result ≡ reset_persist build }
    {
        Rtc::new(build)
    }

    // The current UTC time at a tick, or the last known one. A tick before the anchor adds nothing, and the sum is held at the largest number.
    #[tactic(auto, unfolding(model::specs::Clock::reading))]
    pub fn utc_time(self, tick: u64) -> UtcTime
        ensures { reading_of result ≡ reading (clock_of self) tick }
    {
        match self.anchor {
            None => UtcTime::LastKnown(self.utc_us),
            Some(at) => UtcTime::Reliable(self.utc_us.saturating_add(tick.saturating_sub(at))),
        }
    }

    // The granularity of the current UTC time, and none until the clock is set.
    #[tactic(auto, unfolding(model::specs::Clock::granularity_read))]
    pub fn utc_time_granularity(self) -> TimeGranularity
        ensures { result ≡ granularity_read (clock_of self) }
    {
        if self.anchor.is_some() {
            self.granularity
        } else {
            TimeGranularity::NoTime
        }
    }

    // The source of the current UTC time, and none until the clock is set.
    #[tactic(auto, unfolding(model::specs::Clock::source_read))]
    pub fn utc_time_source(self) -> TimeSource
        ensures { result ≡ source_read (clock_of self) }
    {
        if self.anchor.is_some() {
            self.source
        } else {
            TimeSource::None
        }
    }
}
