// Readings of the clock, and LocalTime. The two with several outputs test the image themselves, as an entry matches its table.
ghost use Rattle.std.specs.Prelude.{◌≡◌};
ghost use Rattle.model.specs.Answers.{number_of};
ghost use Rattle.model.specs.Clock as C;
ghost use Rattle.model.specs.Output.{leaves, mark_of, or_zero};
ghost use Rattle.rtc.specs.Meaning.{reading_of};
ghost use Rattle.image.specs.Parts.{fabric_of, node_of, endpoint_of, clock_in};
ghost use Rattle.readings.specs.Readings.{utc_time, reliable_mark, moment_of, granularity, time_source, trusted_time_source, local_time};
ghost use Rattle.readings.specs.There.{told};

use crate::{held, lists, tell, tell_option};
use image::parts::rtc_in;
use image::place::is_image;
use model::{Refusal, TAKEN};
use rtc::UtcTime;

// The UTC time at a tick: whether it is reliable, and the current or the last known moment.
pub fn utc_time(image: &[u8], tick: u64, reliable: &mut u64, utc_us: &mut u64) -> u64
    ensures { let r = utc_time image.now tick in
        (result ≡ number_of r) × (reliable.new ≡ leaves r reliable_mark reliable.old) × (utc_us.new ≡ leaves r moment_of utc_us.old) }
{
    if !is_image(image) {
        return u64::from(Refusal::BadLimits);
    }
    let utc = rtc_in(image).utc_time(tick);
    *reliable = utc.reliable().is_some() as u64;
    *utc_us = match utc {
        UtcTime::Reliable(moment) | UtcTime::LastKnown(moment) => moment,
    };
    TAKEN
}

// Granularity, by its number.
pub fn utc_time_granularity(image: &[u8], value: &mut u64) -> u64
    ensures { let r = granularity image.now in
        (result ≡ number_of r) × (value.new ≡ leaves r (λ n. n) value.old) }
{
    let code = held(image).map(|image| u64::from(u8::from(rtc_in(image).utc_time_granularity())));
    tell(code, value)
}

// TimeSource, by its number.
pub fn utc_time_source(image: &[u8], value: &mut u64) -> u64
    ensures { let r = time_source image.now in
        (result ≡ number_of r) × (value.new ≡ leaves r (λ n. n) value.old) }
{
    let code = held(image).map(|image| u64::from(u8::from(rtc_in(image).utc_time_source())));
    tell(code, value)
}

// TrustedTimeSource, or that there is none.
pub fn trusted_time_source(
    image: &[u8],
    there: &mut u64,
    fab_idx: &mut u64,
    node_id: &mut u64,
    endpoint: &mut u64,
) -> u64
    ensures { let r = trusted_time_source image.now in
        (result ≡ number_of r)
        × (there.new ≡ leaves r mark_of there.old)
        × (fab_idx.new ≡ leaves r fabric_of fab_idx.old)
        × (node_id.new ≡ leaves r node_of node_id.old)
        × (endpoint.new ≡ leaves r endpoint_of endpoint.old) }
{
    if !is_image(image) {
        return u64::from(Refusal::BadLimits);
    }
    let trusted = rtc_in(image).trusted_time_source;
    let source = trusted.unwrap_or_default();
    *there = trusted.is_some() as u64;
    *fab_idx = source.fab_idx as u64;
    *node_id = source.node_id;
    *endpoint = source.endpoint as u64;
    TAKEN
}

// LocalTime at a tick, or null.
fn local(image: &[u8], tick: u64) -> Result<Option<u64>, Refusal>
    ensures { told result ≡ local_time image.now tick }
{
    let reading = rtc_in(held(image)?).utc_time(tick);
    local_time::local_time(reading, lists(image).ok())
}

// The same, by C's mark and number.
pub fn local_time(image: &[u8], tick: u64, there: &mut u64, local_us: &mut u64) -> u64
    ensures { let r = local_time image.now tick in
        (result ≡ number_of r) × (there.new ≡ leaves r mark_of there.old) × (local_us.new ≡ leaves r or_zero local_us.old) }
{
    tell_option(local(image, tick), 0, there, local_us)
}
