// The number of a granularity, a time source and a refusal, and what a number from outside names.
ghost use Rattle.std.specs.Prelude.{◌≡◌};
ghost use Rattle.std.specs.Result.{result_ok};
ghost use Rattle.model.specs.Numbers.{granularity_number, granularity_of, source_number, source_of, refusal_number, refusal_of};

use crate::{Refusal, TimeGranularity, TimeSource};

// A number that names nothing.
#[derive(Clone, Copy, PartialEq, Eq)]
pub struct UnknownNumber;

impl From<TimeGranularity> for u8 {
    fn from(granularity: TimeGranularity) -> u8
        ensures { result ≡ granularity_number granularity }
    {
        granularity as u8
    }
}

impl TryFrom<u8> for TimeGranularity {
    type Error = UnknownNumber;

    #[tactic(auto, unfolding(crate::specs::Numbers::granularity_of))]
    fn try_from(n: u8) -> Result<TimeGranularity, UnknownNumber>
        ensures { result_ok result ≡ granularity_of n }
    {
        match n {
            0 => Ok(TimeGranularity::NoTime),
            1 => Ok(TimeGranularity::Minutes),
            2 => Ok(TimeGranularity::Seconds),
            3 => Ok(TimeGranularity::Milliseconds),
            4 => Ok(TimeGranularity::Microseconds),
            _ => Err(UnknownNumber),
        }
    }
}

impl From<TimeSource> for u8 {
    fn from(source: TimeSource) -> u8
        ensures { result ≡ source_number source }
    {
        source as u8
    }
}

impl TryFrom<u8> for TimeSource {
    type Error = UnknownNumber;

    #[tactic(auto, unfolding(crate::specs::Numbers::source_of))]
    fn try_from(n: u8) -> Result<TimeSource, UnknownNumber>
        ensures { result_ok result ≡ source_of n }
    {
        match n {
            0 => Ok(TimeSource::None),
            1 => Ok(TimeSource::Unknown),
            2 => Ok(TimeSource::Admin),
            3 => Ok(TimeSource::NodeTimeCluster),
            4 => Ok(TimeSource::NonMatterSNTP),
            5 => Ok(TimeSource::NonMatterNTP),
            6 => Ok(TimeSource::MatterSNTP),
            7 => Ok(TimeSource::MatterNTP),
            8 => Ok(TimeSource::MixedNTP),
            9 => Ok(TimeSource::NonMatterSNTPNTS),
            10 => Ok(TimeSource::NonMatterNTPNTS),
            11 => Ok(TimeSource::MatterSNTPNTS),
            12 => Ok(TimeSource::MatterNTPNTS),
            13 => Ok(TimeSource::MixedNTPNTS),
            14 => Ok(TimeSource::CloudSource),
            15 => Ok(TimeSource::PTP),
            16 => Ok(TimeSource::GNSS),
            _ => Err(UnknownNumber),
        }
    }
}

impl From<Refusal> for u8 {
    fn from(refusal: Refusal) -> u8
        ensures { result ≡ refusal_number refusal }
    {
        refusal as u8
    }
}

// As C reads it.
impl From<Refusal> for u64 {
    fn from(refusal: Refusal) -> u64
        ensures { result ≡ refusal_number refusal }
    {
        refusal as u64
    }
}

impl TryFrom<u8> for Refusal {
    type Error = UnknownNumber;

    #[tactic(auto, unfolding(crate::specs::Numbers::refusal_of))]
    fn try_from(n: u8) -> Result<Refusal, UnknownNumber>
        ensures { result_ok result ≡ refusal_of n }
    {
        match n {
            1 => Ok(Refusal::Unreadable),
            2 => Ok(Refusal::ConstraintError),
            3 => Ok(Refusal::ResourceExhausted),
            4 => Ok(Refusal::InvalidCommand),
            5 => Ok(Refusal::CommandNotFound),
            6 => Ok(Refusal::AttributeNotFound),
            7 => Ok(Refusal::BadRecord),
            8 => Ok(Refusal::BadLimits),
            9 => Ok(Refusal::NoSpace),
            _ => Err(UnknownNumber),
        }
    }
}
