// Commands on the clock, its own settings, its load and its reset.
ghost use Rattle.std.specs.Prelude.{◌≡◌};
ghost use Rattle.image.specs.Asked.{given};
ghost use Rattle.commands.specs.Calls.{set_utc_time_command, set_trusted_time_source, named_by, rtc_set, rtc_set_persist};
ghost use Rattle.commands.specs.Calls.{source_by, load_clock, reset_clock};
ghost use Rattle.commands.specs.Taken.{setting_read, Sets};

use crate::codes::{CLOCK_RESET, UTC_REPORTED};
use crate::{arguments, codes};
use image::asked::given;
use image::parts::{put_rtc, rtc_in};
use image::place::{has_lists, is_image};
use model::{Refusal, TAKEN, TimeGranularity, TimeSource};
use rtc::Rtc;

// ## Commands

// SetUTCTime; `source` is the request's time source where `has_source` is not 0. The UTC time is set with source Admin; the timer is woken
// where there is a list store, changed or not.
#[tactic(auto, unfolding(crate::specs::Calls::utc_time_set, model::specs::Handler::set_utc_time_command))]
pub fn set_utc_time(
    image: &mut [u8],
    utc_us: u64,
    granularity: u8,
    has_source: u8,
    source: u8,
    tick: u64,
) -> u64
    ensures { let set = set_utc_time_command image.old utc_us granularity (given has_source source) tick in
        (result ≡ set.returned) × (image.new ≡ set.image) }
{
    if !is_image(image) {
        return codes::refusal(Refusal::BadLimits);
    }
    if !arguments::source_readable(has_source, source) {
        return codes::refusal(Refusal::Unreadable);
    }
    let Ok(granularity) = TimeGranularity::try_from(granularity) else {
        return codes::refusal(Refusal::Unreadable);
    };
    let wakes = has_lists(image);
    let set = rtc_in(image).set_utc_time(utc_us, granularity, TimeSource::Admin, tick);
    put_rtc(image, set.rtc);
    codes::utc_time(wakes)
}

// SetTrustedTimeSource for the fabric that asks; without a named node the source is cleared. The source is stored or removed; the client is
// woken even where the source is equal.
#[tactic(auto, unfolding(crate::specs::Calls::source_set, model::specs::Handler::set_trusted_time_source))]
pub fn set_trusted_time_source(
    image: &mut [u8],
    fab_idx: u8,
    named: u8,
    node_id: u64,
    endpoint: u16,
) -> u64
    ensures { let set = set_trusted_time_source image.old fab_idx (named_by named node_id endpoint) in
        (result ≡ set.returned) × (image.new ≡ set.image) }
{
    if fab_idx == 0 {
        return codes::refusal(Refusal::InvalidCommand);
    }
    if !is_image(image) {
        return codes::refusal(Refusal::BadLimits);
    }
    let source = arguments::source(named, fab_idx, node_id, endpoint);
    let set = rtc_in(image).set_trusted_time_source(source);
    put_rtc(image, set.rtc);
    codes::trusted_source(set.change)
}

// ## The clock's own settings

// Sets the clock of an image by a call on it, which answers the clock after it, whether something changed, and what is returned.
fn set_by<F: FnOnce(Rtc, TimeGranularity, TimeSource) -> (Rtc, bool, u64)>(
    image: &mut [u8],
    granularity: u8,
    source: u8,
    changed: &mut u64,
    call: F,
) -> u64
    requires { F.IsAlwaysCallable call }
    ensures { Sets (λ rtc g t r. F.post call rtc g t r)
        image.old (setting_read image.old granularity source) changed.old result image.new changed.new }
{
    if !is_image(image) {
        return codes::refusal(Refusal::BadLimits);
    }
    let numbers = (
        TimeGranularity::try_from(granularity),
        TimeSource::try_from(source),
    );
    let (Ok(granularity), Ok(source)) = numbers else {
        return codes::refusal(Refusal::Unreadable);
    };
    let (rtc, has_changed, number) = call(rtc_in(image), granularity, source);
    put_rtc(image, rtc);
    *changed = u64::from(has_changed);
    number
}

// Sets the UTC time with a source of any kind; `changed` is whether something changed.
#[tactic(auto, unfolding(crate::specs::Calls::clock_set, model::specs::Codes::returned, model::specs::Bytes::number))]
pub fn rtc_set_utc_time(
    image: &mut [u8],
    utc_us: u64,
    granularity: u8,
    source: u8,
    tick: u64,
    changed: &mut u64,
) -> u64
    ensures { let set = rtc_set image.old utc_us granularity source tick changed.old in
        (result ≡ set.returned) × (image.new ≡ set.image) × (changed.new ≡ set.changed) }
{
    let call = |rtc: Rtc, granularity, source| {
        let set = rtc.set_utc_time(utc_us, granularity, source, tick);
        (set.rtc, set.changed, UTC_REPORTED)
    };
    set_by(image, granularity, source, changed, call)
}

// The same, and has the moment stored that is a day or more from the persisted one.
#[tactic(auto, unfolding(crate::specs::Calls::clock_set_persist))]
pub fn rtc_set_utc_time_persist(
    image: &mut [u8],
    utc_us: u64,
    granularity: u8,
    source: u8,
    tick: u64,
    changed: &mut u64,
) -> u64
    ensures { let set = rtc_set_persist image.old utc_us granularity source tick changed.old in
        (result ≡ set.returned) × (image.new ≡ set.image) × (changed.new ≡ set.changed) }
{
    let call = |rtc: Rtc, granularity, source| {
        let set = rtc.set_utc_time_persist(utc_us, granularity, source, tick);
        (set.rtc, set.changed, codes::setting(set.stored))
    };
    set_by(image, granularity, source, changed, call)
}

// ## Load and reset

// Loads the clock from what flash holds of it.
#[tactic(auto, unfolding(crate::specs::Calls::clock_loaded, model::specs::Handler::load_clock, model::specs::Codes::returned, model::specs::Bytes::number))]
pub fn load_clock(
    image: &mut [u8],
    build: u64,
    has_moment: u8,
    moment: u64,
    has_source: u8,
    fab_idx: u8,
    node_id: u64,
    endpoint: u16,
) -> u64
    ensures { let loaded = load_clock image.old build (given has_moment moment) (source_by has_source fab_idx node_id endpoint) in
        (result ≡ loaded.returned) × (image.new ≡ loaded.image) }
{
    if !is_image(image) {
        return codes::refusal(Refusal::BadLimits);
    }
    let stored = given(has_moment, moment);
    let source = arguments::source(has_source, fab_idx, node_id, endpoint);
    match rtc_in(image).load_persist(build, stored, source) {
        Ok(rtc) => {
            put_rtc(image, rtc);
            TAKEN
        }
        Err(cause) => codes::refusal(cause),
    }
}

// Resets the clock.
#[tactic(auto, unfolding(crate::specs::Calls::clock_reset, model::specs::Handler::reset_clock, model::specs::Clock::reset_persist, model::specs::Codes::returned, model::specs::Bytes::number))]
pub fn reset_clock(image: &mut [u8], build: u64) -> u64
    ensures { let reset = reset_clock image.old build in
        (result ≡ reset.returned) × (image.new ≡ reset.image) }
{
    if !is_image(image) {
        return codes::refusal(Refusal::BadLimits);
    }
    let rtc = rtc_in(image).reset_persist(build);
    put_rtc(image, rtc);
    CLOCK_RESET
}
