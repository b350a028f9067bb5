// A new image, commands on the clock, its own settings, its load and its reset.
// C calls these: an answer is a number, and a value that may be missing has a mark beside it, 0 where it is not there.
ghost use Rattle.commands.specs.Calls.{load_clock, named_by, new, reset_clock, rtc_set, rtc_set_persist, set_trusted_time_source, set_utc_time_command, source_by};
ghost use Rattle.image.specs.Asked.{given};
ghost use Rattle.std.specs.Prelude.{◌≡◌};

// Makes a new image: with a list store of these limits where the mark is not 0, else without one.
#[unsafe(no_mangle)]
pub extern "C" fn timesync_new(
    image: &mut [u8],
    list_store: u8,
    zone_limit: usize,
    window_limit: usize,
    build: u64,
    period: u64,
) -> u64
    ensures { let o = new image.old list_store zone_limit window_limit build period in
        (result ≡ o.returned)
        × (image.new ≡ o.image) }
{
    controller::clock::timesync_new(image, list_store, zone_limit, window_limit, build, period)
}

// SetUTCTime; `source` is the request's time source where `has_source` is not 0.
#[unsafe(no_mangle)]
pub extern "C" fn timesync_set_utc_time(
    image: &mut [u8],
    utc_us: u64,
    granularity: u8,
    has_source: u8,
    source: u8,
    tick: u64,
) -> u64
    ensures { let o = set_utc_time_command image.old utc_us granularity (given has_source source) tick in
        (result ≡ o.returned)
        × (image.new ≡ o.image) }
{
    controller::clock::timesync_set_utc_time(image, utc_us, granularity, has_source, source, tick)
}

// SetTrustedTimeSource for the fabric that asks; without a named node the source is cleared.
#[unsafe(no_mangle)]
pub extern "C" fn timesync_set_trusted_time_source(
    image: &mut [u8],
    fab_idx: u8,
    named: u8,
    node_id: u64,
    endpoint: u16,
) -> u64
    ensures { let o = set_trusted_time_source image.old fab_idx (named_by named node_id endpoint) in
        (result ≡ o.returned)
        × (image.new ≡ o.image) }
{
    controller::clock::timesync_set_trusted_time_source(image, fab_idx, named, node_id, endpoint)
}

// Sets the UTC time with a source of any kind; `changed` is whether something changed.
#[unsafe(no_mangle)]
pub extern "C" fn timesync_rtc_set_utc_time(
    image: &mut [u8],
    utc_us: u64,
    granularity: u8,
    source: u8,
    tick: u64,
    changed: &mut u64,
) -> u64
    ensures { let o = rtc_set image.old utc_us granularity source tick changed.old in
        (result ≡ o.returned)
        × (image.new ≡ o.image)
        × (changed.new ≡ o.changed) }
{
    controller::clock::timesync_rtc_set_utc_time(image, utc_us, granularity, source, tick, changed)
}

// The same, and has the moment stored that is a day or more from the persisted one.
#[unsafe(no_mangle)]
pub extern "C" fn timesync_rtc_set_utc_time_persist(
    image: &mut [u8],
    utc_us: u64,
    granularity: u8,
    source: u8,
    tick: u64,
    changed: &mut u64,
) -> u64
    ensures { let o = rtc_set_persist image.old utc_us granularity source tick changed.old in
        (result ≡ o.returned)
        × (image.new ≡ o.image)
        × (changed.new ≡ o.changed) }
{
    controller::clock::timesync_rtc_set_utc_time_persist(
        image,
        utc_us,
        granularity,
        source,
        tick,
        changed,
    )
}

// Loads the clock from what flash holds of it.
#[unsafe(no_mangle)]
pub extern "C" fn timesync_load_clock(
    image: &mut [u8],
    build: u64,
    has_moment: u8,
    moment: u64,
    has_source: u8,
    fab_idx: u8,
    node_id: u64,
    endpoint: u16,
) -> u64
    ensures { let o = load_clock image.old build (given has_moment moment) (source_by has_source fab_idx node_id endpoint) in
        (result ≡ o.returned)
        × (image.new ≡ o.image) }
{
    controller::clock::timesync_load_clock(
        image, build, has_moment, moment, has_source, fab_idx, node_id, endpoint,
    )
}

// Resets the clock.
#[unsafe(no_mangle)]
pub extern "C" fn timesync_reset_clock(image: &mut [u8], build: u64) -> u64
    ensures { (result ≡ (reset_clock image.old build).returned)
        × (image.new ≡ (reset_clock image.old build).image) }
{
    controller::clock::timesync_reset_clock(image, build)
}
