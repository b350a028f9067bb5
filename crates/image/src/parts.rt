// The clock, the timer and the client of an image, read and written. Over any bytes, an image or not: C lends a slice, and what reads or
// writes a part of it is total.
ghost use Rattle.std.specs.Prelude.{◌≡◌, is_some};
ghost use Rattle.rtc.specs.Meaning.{clock_of, option_source};
ghost use Rattle.transition_timer.specs.Meaning.{timer_of};
ghost use Rattle.time_sync_client.specs.Meaning.{client_of};
ghost use Rattle.table.specs.Layout.{maybe_at};
ghost use Rattle.image.specs.Limits.{zones_of, windows_of};
ghost use Rattle.image.specs.Parts.{clock_in, timer_in, client_in, with_clock, with_timer, with_client, new_image};

use crate::place::{
    ACTIVE, ANCHOR, CLIENT, CLIENT_SIZE, CLOCK, CLOCK_SIZE, ENDPOINT, FABRIC, FAILED, FAILURE_AT,
    GRANULARITY, MAGIC, MAGIC_PLACE, MISSED, MISSING_AT, NODE, OFFSET, PERIOD, PERSISTED, RETRY,
    SEEN, SET, SIZE, SOURCE, STORE, TABLE, TIMER, TIMER_SIZE, TRUSTED, USABLE, UTC, mark_at,
};
use model::{TimeGranularity, TimeSource};
use rtc::{Rtc, TrustedTimeSource};
use table::Limits;
use time_sync_client::TimeSyncClient;
use transition_timer::Seen;
use word::or_zero::{i32_at, put_u16, u8_at, u16_at, u64_at};
use word::{in_bounds, put, put_i32, put_u32, put_u64};

// Without a list store the table is written with limits that no store can have.
const NO_LISTS: Limits = Limits {
    zones: 0,
    windows: 0,
};

// ## Read

// The granularity; a code out of range stands for NoTime.
fn granularity_in(image: &[u8]) -> TimeGranularity
    ensures { result ≡ (clock_in image.now).granularity }
{
    TimeGranularity::try_from(u8_at(image, GRANULARITY)).unwrap_or(TimeGranularity::NoTime)
}

// The time source; a code out of range stands for None. Not one generic function with the one above: it would need a trait with laws for
// two callers, which is no plainer.
fn source_in(image: &[u8]) -> TimeSource
    ensures { result ≡ (clock_in image.now).source }
{
    TimeSource::try_from(u8_at(image, SOURCE)).unwrap_or(TimeSource::None)
}

// The moment at a place, where its mark is set.
fn moment_at(image: &[u8], mark: usize, at: usize) -> Option<u64>
    ensures { result ≡ maybe_at image.now mark at }
{
    mark_at(image, mark).then(|| u64_at(image, at))
}

// The trusted time source.
fn trusted_in(image: &[u8]) -> Option<TrustedTimeSource>
    ensures { option_source result ≡ (clock_in image.now).trusted }
{
    mark_at(image, TRUSTED).then(|| TrustedTimeSource {
        fab_idx: u8_at(image, FABRIC),
        node_id: u64_at(image, NODE),
        endpoint: u16_at(image, ENDPOINT),
    })
}

// The clock.
pub fn rtc_in(image: &[u8]) -> Rtc
    ensures { clock_of result ≡ clock_in image.now }
{
    Rtc {
        utc_us: u64_at(image, UTC),
        utc_us_persisted: u64_at(image, PERSISTED),
        granularity: granularity_in(image),
        source: source_in(image),
        anchor: moment_at(image, SET, ANCHOR),
        trusted_time_source: trusted_in(image),
    }
}

// What the timer last saw.
pub fn seen_in(image: &[u8]) -> Option<Seen>
    ensures { timer_of result ≡ timer_in image.now }
{
    mark_at(image, SEEN).then(|| Seen {
        offset: i32_at(image, OFFSET),
        active: mark_at(image, ACTIVE),
        usable: mark_at(image, USABLE),
    })
}

// The client.
pub fn client_in(image: &[u8]) -> TimeSyncClient
    ensures { client_of result ≡ client_in image.now }
{
    TimeSyncClient {
        period: u64_at(image, PERIOD),
        retry: u64_at(image, RETRY),
        missing_source_at: moment_at(image, MISSED, MISSING_AT),
        time_failure_at: moment_at(image, FAILED, FAILURE_AT),
    }
}

// ## Written: on a slice that is too short for the part nothing is

// Writes the clock; without a trusted time source there are zeros.
#[tactic(auto, using(crate::proofs::Written::writes), unfolding(crate::specs::Parts::with_clock, crate::specs::Parts::clock_bytes))]
pub fn put_rtc(image: &mut [u8], rtc: Rtc)
    ensures { image.new ≡ with_clock image.old (clock_of rtc) }
{
    if !in_bounds(image, CLOCK, CLOCK_SIZE) {
        return;
    }
    let trusted = rtc.trusted_time_source;
    let source = trusted.unwrap_or_default();
    let codes = [
        u8::from(rtc.granularity),
        u8::from(rtc.source),
        u8::from(rtc.anchor.is_some()),
        u8::from(trusted.is_some()),
        source.fab_idx,
        0,
    ];
    put(image, CLOCK, &codes);
    put_u16(image, ENDPOINT, source.endpoint);
    put_u64(image, UTC, rtc.utc_us);
    put_u64(image, PERSISTED, rtc.utc_us_persisted);
    put_u64(image, ANCHOR, rtc.anchor.unwrap_or(0));
    put_u64(image, NODE, source.node_id);
}

// Writes what the timer saw; one that saw nothing is zeros.
#[tactic(auto, using(crate::proofs::Written::writes), unfolding(crate::specs::Parts::with_timer))]
pub fn put_seen(image: &mut [u8], seen: Option<Seen>)
    ensures { image.new ≡ with_timer image.old (timer_of seen) }
{
    if !in_bounds(image, TIMER, TIMER_SIZE) {
        return;
    }
    let last = seen.unwrap_or_default();
    let marks = [
        u8::from(seen.is_some()),
        u8::from(last.active),
        u8::from(last.usable),
        0,
    ];
    put(image, SEEN, &marks);
    put_i32(image, OFFSET, last.offset);
}

// Writes the client.
#[tactic(auto, using(crate::proofs::Written::writes), unfolding(crate::specs::Parts::with_client, crate::specs::Parts::client_bytes))]
pub fn put_client(image: &mut [u8], client: TimeSyncClient)
    ensures { image.new ≡ with_client image.old (client_of client) }
{
    if !in_bounds(image, CLIENT, CLIENT_SIZE) {
        return;
    }
    let missing = client.missing_source_at;
    let failure = client.time_failure_at;
    put_u64(image, PERIOD, client.period);
    put_u64(image, RETRY, client.retry);
    put_u64(image, MISSING_AT, missing.unwrap_or(0));
    put_u64(image, FAILURE_AT, failure.unwrap_or(0));
    let marks = [
        u8::from(missing.is_some()),
        u8::from(failure.is_some()),
        0,
        0,
        0,
        0,
        0,
        0,
    ];
    put(image, MISSED, &marks);
}

// ## A new image

// Writes a new image over the front of the slice, where it fits: with a list store of these limits, or with none.
#[tactic(auto, using(word::proofs::Frame::placed_else, crate::proofs::Written::length_new), unfolding(crate::specs::Parts::new_image))]
pub fn put_new(image: &mut [u8], limits: Option<Limits>, build: u64, period: u64)
    ensures { image.new ≡ new_image image.old (is_some limits) (zones_of limits) (windows_of limits) build period }
{
    if image.len() < SIZE {
        return;
    }
    put_u32(image, MAGIC_PLACE, MAGIC);
    put(image, STORE, &[u8::from(limits.is_some()), 0, 0, 0]);
    put_rtc(image, Rtc::new(build));
    put_client(image, TimeSyncClient::new(period));
    put_seen(image, None);
    table::layout::put_new(&mut image[TABLE..SIZE], limits.unwrap_or(NO_LISTS));
}
