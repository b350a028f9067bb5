// Entries of the lists, lookups, the walk and the record.
// C calls these: an answer is a number, and a value that may be missing has a mark beside it, 0 where it is not there.
ghost use Rattle.model.specs.Answers.{number_of};
ghost use Rattle.model.specs.Output.{leaves, leaves_copy, mark_of, or_zero, or_zeroℤ};
ghost use Rattle.readings.specs.Readings.{active_offset, active_zone, next_transition, now_name, record_bytes, record_read, walk_bytes, walked, window_entry, zone_entry, zone_name};
ghost use Rattle.std.specs.Prelude.{length, ◌≡◌};

// TimeZone: one of the listed zones; its name is copied to the front of `name`.
#[unsafe(no_mangle)]
pub extern "C" fn timesync_time_zone(
    image: &[u8],
    index: usize,
    name: &mut [u8],
    offset: &mut i32,
    valid_at: &mut u64,
    named: &mut u64,
    name_len: &mut u64,
) -> u64
    ensures { let r = zone_entry image.now index (length name.old) in
        (result ≡ number_of r)
        × (name.new ≡ leaves_copy r zone_name name.old)
        × (offset.new ≡ leaves r (λ z. z.offset) offset.old)
        × (valid_at.new ≡ leaves r (λ z. z.start) valid_at.old)
        × (named.new ≡ leaves r (λ z. mark_of z.name) named.old)
        × (name_len.new ≡ leaves r (λ z. length (zone_name z)) name_len.old) }
{
    controller::entries::timesync_time_zone(image, index, name, offset, valid_at, named, name_len)
}

// DSTOffset: one of the windows.
#[unsafe(no_mangle)]
pub extern "C" fn timesync_dst_offset(
    image: &[u8],
    index: usize,
    offset: &mut i32,
    valid_starting: &mut u64,
    closed: &mut u64,
    valid_until: &mut u64,
) -> u64
    ensures { let r = window_entry image.now index in
        (result ≡ number_of r)
        × (offset.new ≡ leaves r (λ w. w.offset) offset.old)
        × (valid_starting.new ≡ leaves r (λ w. w.start) valid_starting.old)
        × (closed.new ≡ leaves r (λ w. mark_of w.until) closed.old)
        × (valid_until.new ≡ leaves r (λ w. or_zero w.until) valid_until.old) }
{
    controller::entries::timesync_dst_offset(
        image,
        index,
        offset,
        valid_starting,
        closed,
        valid_until,
    )
}

// The active zone; its name is copied to the front of `name`.
#[unsafe(no_mangle)]
pub extern "C" fn timesync_active_time_zone(
    image: &[u8],
    utc: u64,
    name: &mut [u8],
    offset: &mut i32,
    named: &mut u64,
    name_len: &mut u64,
) -> u64
    ensures { let r = active_zone image.now utc (length name.old) in
        (result ≡ number_of r)
        × (name.new ≡ leaves_copy r now_name name.old)
        × (offset.new ≡ leaves r (λ z. z.offset) offset.old)
        × (named.new ≡ leaves r (λ z. mark_of z.name) named.old)
        × (name_len.new ≡ leaves r (λ z. length (now_name z)) name_len.old) }
{
    controller::entries::timesync_active_time_zone(image, utc, name, offset, named, name_len)
}

// The offset of the first active window, or that none is active.
#[unsafe(no_mangle)]
pub extern "C" fn timesync_active_dst_offset(
    image: &[u8],
    utc: u64,
    there: &mut u64,
    offset: &mut i32,
) -> u64
    ensures { let r = active_offset image.now utc in
        (result ≡ number_of r)
        × (there.new ≡ leaves r mark_of there.old)
        × (offset.new ≡ leaves r or_zeroℤ offset.old) }
{
    controller::entries::timesync_active_dst_offset(image, utc, there, offset)
}

// The smallest start or end after now, or that there is none.
#[unsafe(no_mangle)]
pub extern "C" fn timesync_next_transition(
    image: &[u8],
    utc: u64,
    there: &mut u64,
    moment: &mut u64,
) -> u64
    ensures { let r = next_transition image.now utc in
        (result ≡ number_of r)
        × (there.new ≡ leaves r mark_of there.old)
        × (moment.new ≡ leaves r or_zero moment.old) }
{
    controller::entries::timesync_next_transition(image, utc, there, moment)
}

// The walk: its moments to the front of `moments`, 8 bytes each and the starting moment first, and the number of steps.
#[unsafe(no_mangle)]
pub extern "C" fn timesync_walk(
    image: &[u8],
    start: u64,
    moments: &mut [u8],
    steps: &mut u64,
) -> u64
    ensures { let r = walked image.now start (length moments.old) in
        (result ≡ number_of r)
        × (moments.new ≡ leaves_copy r walk_bytes moments.old)
        × (steps.new ≡ leaves r (λ w. w.steps) steps.old) }
{
    controller::entries::timesync_walk(image, start, moments, steps)
}

// The record of both lists to the front of `out`, and its length.
#[unsafe(no_mangle)]
pub extern "C" fn timesync_record(image: &[u8], out: &mut [u8], used: &mut u64) -> u64
    ensures { let r = record_read image.now (length out.old) in
        (result ≡ number_of r)
        × (out.new ≡ leaves_copy r record_bytes out.old)
        × (used.new ≡ leaves r (λ b. length b) used.old) }
{
    controller::entries::timesync_record(image, out, used)
}
