// What a device answers about its lists: how many entries are listed, and one of them. Each output of an entry point is a variable of its
// own, as C wants it.
use crate::device::told;
use controller::attributes::{timesync_dst_offset_count, timesync_time_zone_count};
use controller::entries::{timesync_dst_offset, timesync_time_zone};
use record::entry::MOST_NAME;
use std::io::{Result, Write};

// Writes a count that was read, or the refusal's number.
fn count(out: &mut impl Write, returned: u64, n: u64) -> Result<()> {
    if returned != 0 {
        return told(out, returned);
    }
    write!(out, " {n}")
}

// How many zones are listed, and how many windows.
pub(crate) fn counts(out: &mut impl Write, image: &[u8]) -> Result<()> {
    let mut n: u64 = 0;
    let zones = timesync_time_zone_count(image, &mut n);
    count(out, zones, n)?;
    let windows = timesync_dst_offset_count(image, &mut n);
    count(out, windows, n)
}

// The listed zone at an index, with its name as it is.
pub(crate) fn zone(out: &mut impl Write, image: &[u8], index: usize) -> Result<()> {
    let mut name = [0u8; MOST_NAME];
    let mut offset: i32 = 0;
    let mut start: u64 = 0;
    let mut is_named: u64 = 0;
    let mut n: u64 = 0;
    told(
        out,
        timesync_time_zone(
            image,
            index,
            &mut name,
            &mut offset,
            &mut start,
            &mut is_named,
            &mut n,
        ),
    )?;
    write!(out, "({offset} from {start}")?;
    if is_named != 0 {
        write!(out, " named ")?;
        out.write_all(name.get(..n as usize).unwrap_or(&[]))?;
    }
    write!(out, ")")
}

// The listed window at an index.
pub(crate) fn window(out: &mut impl Write, image: &[u8], index: usize) -> Result<()> {
    let mut offset: i32 = 0;
    let mut start: u64 = 0;
    let mut closed: u64 = 0;
    let mut end: u64 = 0;
    told(
        out,
        timesync_dst_offset(image, index, &mut offset, &mut start, &mut closed, &mut end),
    )?;
    write!(out, "({offset} from {start}")?;
    if closed != 0 {
        write!(out, " to {end}")?;
    }
    write!(out, ")")
}
