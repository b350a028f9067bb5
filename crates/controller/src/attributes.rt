// Readings of the clock, and the numbers of the list store.
// C calls these through crate `controller_c`: an answer is a number, and a value that may be missing has a mark beside it, 0 where it is not there.
ghost use Rattle.image.specs.Parts.{endpoint_of, fabric_of, node_of};
ghost use Rattle.model.specs.Answers.{number_of};
ghost use Rattle.model.specs.Output.{leaves, mark_of, or_zero, truth};
ghost use Rattle.readings.specs.Readings.{database, generation, granularity, local_time, moment_of, reliable_mark, table_empty, time_source, trusted_time_source, usable, utc_time, window_limit, windows_listed, zone_limit, zones_listed};
ghost use Rattle.std.specs.Prelude.{◌≡◌};

// The UTC time at a tick: whether it is reliable, and the current or the last known moment.
pub fn timesync_utc_time(image: &[u8], tick: u64, reliable: &mut u64, utc_us: &mut u64) -> u64
    ensures { let r = utc_time image.now tick in
        (result ≡ number_of r)
        × (reliable.new ≡ leaves r reliable_mark reliable.old)
        × (utc_us.new ≡ leaves r moment_of utc_us.old) }
{
    readings::clock::utc_time(image, tick, reliable, utc_us)
}

// Granularity, by its number.
pub fn timesync_utc_time_granularity(image: &[u8], value: &mut u64) -> u64
    ensures { (result ≡ number_of (granularity image.now))
        × (value.new ≡ leaves (granularity image.now) (λ n. n) value.old) }
{
    readings::clock::utc_time_granularity(image, value)
}

// TimeSource, by its number.
pub fn timesync_utc_time_source(image: &[u8], value: &mut u64) -> u64
    ensures { (result ≡ number_of (time_source image.now))
        × (value.new ≡ leaves (time_source image.now) (λ n. n) value.old) }
{
    readings::clock::utc_time_source(image, value)
}

// TrustedTimeSource, or that there is none.
pub fn timesync_trusted_time_source(
    image: &[u8],
    there: &mut u64,
    fab_idx: &mut u64,
    node_id: &mut u64,
    endpoint: &mut u64,
) -> u64
    ensures { let r = trusted_time_source image.now in
        (result ≡ number_of r)
        × (there.new ≡ leaves r mark_of there.old)
        × (fab_idx.new ≡ leaves r fabric_of fab_idx.old)
        × (node_id.new ≡ leaves r node_of node_id.old)
        × (endpoint.new ≡ leaves r endpoint_of endpoint.old) }
{
    readings::clock::trusted_time_source(image, there, fab_idx, node_id, endpoint)
}

// LocalTime at a tick, or null.
pub fn timesync_local_time(image: &[u8], tick: u64, there: &mut u64, local_us: &mut u64) -> u64
    ensures { let r = local_time image.now tick in
        (result ≡ number_of r)
        × (there.new ≡ leaves r mark_of there.old)
        × (local_us.new ≡ leaves r or_zero local_us.old) }
{
    readings::clock::local_time(image, tick, there, local_us)
}

// TimeZone: how many zones are listed.
pub fn timesync_time_zone_count(image: &[u8], value: &mut u64) -> u64
    ensures { (result ≡ number_of (zones_listed image.now))
        × (value.new ≡ leaves (zones_listed image.now) (λ n. n) value.old) }
{
    readings::store::time_zone_count(image, value)
}

// DSTOffset: how many windows there are.
pub fn timesync_dst_offset_count(image: &[u8], value: &mut u64) -> u64
    ensures { (result ≡ number_of (windows_listed image.now))
        × (value.new ≡ leaves (windows_listed image.now) (λ n. n) value.old) }
{
    readings::store::dst_offset_count(image, value)
}

// TimeZoneListMaxSize.
pub fn timesync_time_zone_list_max_size(image: &[u8], value: &mut u64) -> u64
    ensures { (result ≡ number_of (zone_limit image.now))
        × (value.new ≡ leaves (zone_limit image.now) (λ n. n) value.old) }
{
    readings::store::time_zone_list_max_size(image, value)
}

// DSTOffsetListMaxSize.
pub fn timesync_dst_offset_list_max_size(image: &[u8], value: &mut u64) -> u64
    ensures { (result ≡ number_of (window_limit image.now))
        × (value.new ≡ leaves (window_limit image.now) (λ n. n) value.old) }
{
    readings::store::dst_offset_list_max_size(image, value)
}

// TimeZoneDatabase: None, whose number is 2.
pub fn timesync_time_zone_database(image: &[u8], value: &mut u64) -> u64
    ensures { (result ≡ number_of (database image.now))
        × (value.new ≡ leaves (database image.now) (λ n. n) value.old) }
{
    readings::store::time_zone_database(image, value)
}

// How many changes of the lists there were.
pub fn timesync_generation(image: &[u8], value: &mut u64) -> u64
    ensures { (result ≡ number_of (generation image.now))
        × (value.new ≡ leaves (generation image.now) (λ n. n) value.old) }
{
    readings::store::generation(image, value)
}

// Whether some window is open or ends after now.
pub fn timesync_dst_usable(image: &[u8], utc: u64, value: &mut u64) -> u64
    ensures { (result ≡ number_of (usable image.now utc))
        × (value.new ≡ leaves (usable image.now utc) truth value.old) }
{
    readings::store::dst_usable(image, utc, value)
}

// Whether there is no window at all.
pub fn timesync_dst_table_empty(image: &[u8], value: &mut u64) -> u64
    ensures { (result ≡ number_of (table_empty image.now))
        × (value.new ≡ leaves (table_empty image.now) truth value.old) }
{
    readings::store::dst_table_empty(image, value)
}
