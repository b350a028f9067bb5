// The client that sets the clock from its trusted time source, by value: attempts, hourly events and retries.
// An attempt is a step, and so is a change of the source. A step answers the next client and clock, what to do, and what comes next.
#![tactic(auto)]

ghost use Rattle.std.specs.Prelude.{true, ◌&&◌, cond, [], ◌≡◌, ◌*◌, min, is_some};
ghost use Rattle.std.specs.Option.{option_and_then, option_map_or};
ghost use Rattle.model.specs.Retries.{new_client, first_retry, granularity_told, refresh_told, refresh, Applied, due, marked, source_missing, time_missing, retry_after, wait_for, next_after, clock_after, clock_effects, attempt_of, attempt, next_if_source, source_changed};
ghost use Rattle.rtc.specs.Meaning.{option_source, clock_of};
ghost use Rattle.time_sync_client.specs.Meaning.{client_of, outcome_of, refresh_of, next_of, setting_effects, step_of};

use model::{TimeGranularity, TimeSource};
use rtc::{Rtc, TrustedTimeSource, UtcTimePersisted};

// The period and the next retry are in microseconds.
#[derive(Clone, Copy)]
pub struct TimeSyncClient {
    pub period: u64,
    pub retry: u64,
    // The ticks at which MissingTrustedTimeSource and TimeFailure were last emitted.
    pub missing_source_at: Option<u64>,
    pub time_failure_at: Option<u64>,
}

// What a source answers.
#[derive(Clone, Copy)]
pub struct Reading {
    pub utc_time: Option<u64>,
    pub granularity: Option<u8>,
}

// What an attempt got. Not a `Result`: with an error enum of three the matches are as many, and a level deeper.
#[derive(Clone, Copy)]
enum Refresh {
    Applied(u64, TimeGranularity),
    NoTime,
    NoSource,
    Failure,
}

// What comes next: an attempt at once, a wait in microseconds or until the source changes, or a wait until it changes.
#[derive(Clone, Copy)]
pub enum Wait {
    AttemptNow,
    For(u64),
    ForSource,
}

// What a step asks for, in this order: to report the time that it applied, to store a moment, and to emit each event.
// `applied` does not follow from `stored`: a time may be applied with nothing to store.
#[derive(Clone, Copy, Default)]
pub struct Effects {
    pub applied: bool,
    pub stored: Option<u64>,
    pub missing_trusted_time_source: bool,
    pub time_failure: bool,
}

#[derive(Clone, Copy)]
pub struct Step {
    pub client: TimeSyncClient,
    pub rtc: Rtc,
    pub effects: Effects,
    pub next: Wait,
}

// What comes after an attempt, and the retry of the next one.
#[derive(Clone, Copy)]
struct Pause {
    next: Wait,
    retry: u64,
}

impl TimeSyncClient {
    // The first retry, 60 s, unless the period is shorter.
    pub const RETRY_MIN: u64 = 60_000_000;

    // At most one event of a kind is emitted in this time, 3,600 s.
    pub const TIME_EVENTS_INTERVAL: u64 = 3_600_000_000;

    // A client that has emitted nothing, and whose first attempt comes next.
    pub fn new(period: u64) -> TimeSyncClient
        ensures { client_of result ≡ new_client period }
    {
        TimeSyncClient {
            period,
            retry: first_retry(period),
            missing_source_at: None,
            time_failure_at: None,
        }
    }

    // The step of an attempt at a tick. Without a source there was no exchange, whatever the outcome.
    #[tactic(auto, unfolding(model::specs::Retries::attempt_of, model::specs::Retries::events_of))]
    pub fn attempt(mut self, rtc: Rtc, outcome: Option<Reading>, tick: u64) -> Step
        ensures { step_of result ≡ attempt (client_of self) (clock_of rtc) (outcome_of outcome) tick }
    {
        let got = Self::refresh(rtc.trusted_time_source, outcome);
        let Pause { next, retry } = self.pause(got);
        self.retry = retry;
        let missing_trusted_time_source = hourly(
            got.no_source(),
            &mut self.missing_source_at,
            tick,
        );
        let time_failure = hourly(got.failed(), &mut self.time_failure_at, tick);
        let set = got.apply(rtc, tick);
        Step {
            client: self,
            rtc: set.map_or(rtc, |s| s.rtc),
            effects: Effects {
                applied: set.is_some(),
                stored: set.and_then(|s| s.stored),
                missing_trusted_time_source,
                time_failure,
            },
            next,
        }
    }

    // The step of a change of the source: the retries start over, and the marks stay.
    #[tactic(auto, unfolding(model::specs::Retries::source_changed))]
    pub fn source_changed(mut self, rtc: Rtc) -> Step
        ensures { step_of result ≡ source_changed (client_of self) (clock_of rtc) }
    {
        self.retry = first_retry(self.period);
        Step {
            client: self,
            rtc,
            effects: Effects::default(),
            next: if rtc.trusted_time_source.is_some() {
                Wait::AttemptNow
            } else {
                Wait::ForSource
            },
        }
    }

    // What an attempt gets: what the outcome says, where there is a source.
    #[tactic(auto, unfolding(model::specs::Retries::refresh))]
    fn refresh(source: Option<TrustedTimeSource>, outcome: Option<Reading>) -> Refresh
        ensures { refresh_of result ≡ refresh (is_some (option_source source)) (outcome_of outcome) }
    {
        if source.is_none() {
            return Refresh::NoSource;
        }
        outcome.map_or(Refresh::Failure, Reading::refreshed)
    }

    // What comes after an attempt that got this; its retry starts over, stays or doubles, at most to the period.
    fn pause(&self, got: Refresh) -> Pause
        ensures next { next_of result.next ≡ next_after (client_of self.now) (refresh_of got) }
        ensures retry { result.retry ≡ retry_after (client_of self.now) (refresh_of got) }
    {
        match got {
            Refresh::Applied(..) => Pause {
                next: Wait::For(self.period),
                retry: first_retry(self.period),
            },
            Refresh::NoSource => Pause {
                next: Wait::ForSource,
                retry: self.retry,
            },
            // The wait is the retry as it was before it doubles.
            Refresh::NoTime | Refresh::Failure => Pause {
                next: Wait::For(self.retry),
                retry: self.retry.saturating_mul(2).min(self.period),
            },
        }
    }
}

impl Reading {
    // A source without a time gives none; the reading takes a round trip, so that it is within milliseconds at best.
    fn refreshed(self) -> Refresh
        ensures { refresh_of result ≡ refresh_told (self.utc_time) (granularity_told (self.granularity)) }
    {
        let Some(utc_us) = self.utc_time else {
            return Refresh::NoTime;
        };
        let granularity = self
            .granularity
            .and_then(|number| TimeGranularity::try_from(number).ok())
            .unwrap_or(TimeGranularity::Seconds);
        match granularity {
            TimeGranularity::NoTime => Refresh::NoTime,
            TimeGranularity::Microseconds => Refresh::Applied(
                utc_us,
                TimeGranularity::Milliseconds,
            ),
            granularity => Refresh::Applied(utc_us, granularity),
        }
    }
}

impl Refresh {
    // Whether no source answered.
    fn no_source(self) -> bool
        ensures { result ≡ source_missing (refresh_of self) }
    {
        matches!(self, Refresh::NoSource | Refresh::Failure)
    }

    // Whether no time was got.
    fn failed(self) -> bool
        ensures { result ≡ time_missing (refresh_of self) }
    {
        !matches!(self, Refresh::Applied(..))
    }

    // The setting of the clock to a time, which is reported also where it is equal to the clock's own; none without a time.
    fn apply(self, rtc: Rtc, tick: u64) -> Option<UtcTimePersisted>
        ensures clock { clock_of (option_map_or (λ s. s.rtc) result rtc) ≡ clock_after (clock_of rtc) (refresh_of self) tick }
        ensures effects { setting_effects (is_some result) (option_and_then (λ s. s.stored) result) ≡ clock_effects (clock_of rtc) (refresh_of self) tick }
    {
        match self {
            Refresh::Applied(utc_us, granularity) => Some(rtc.set_utc_time_persist(
                utc_us,
                granularity,
                TimeSource::NodeTimeCluster,
                tick,
            )),
            Refresh::NoTime | Refresh::NoSource | Refresh::Failure => None,
        }
    }
}

// The first retry: the smaller of RETRY_MIN and the period.
fn first_retry(period: u64) -> u64
    ensures { result ≡ first_retry period }
{
    TimeSyncClient::RETRY_MIN.min(period)
}

// Whether an event is due by its mark: never emitted, or the interval ago or more; a tick before the mark is not due.
fn is_due(at: Option<u64>, tick: u64) -> bool
    ensures { result ≡ due at tick }
{
    at.is_none_or(|mark| tick.saturating_sub(mark) >= TimeSyncClient::TIME_EVENTS_INTERVAL)
}

// Whether an event is emitted: it is wanted and due. Then it is marked at the tick; else its mark stays.
fn hourly(wanted: bool, at: &mut Option<u64>, tick: u64) -> bool
    ensures emitted { result ≡ (wanted && due at.old tick) }
    ensures mark { at.new ≡ cond wanted (marked at.old tick) at.old }
{
    let emitted = wanted && is_due(*at, tick);
    if emitted {
        *at = Some(tick);
    }
    emitted
}
