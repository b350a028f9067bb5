// What a device answers to a script: a new image with a list store of limits 2 and 2, and entry points called one after the other.
ghost use Rattle.std.specs.Prelude.{◌<◌, length, IfSome};

use crate::listing;
use crate::reader::Reader;
use controller::attributes::timesync_local_time;
use controller::clock::{timesync_new, timesync_set_trusted_time_source, timesync_set_utc_time};
use controller::lists::{timesync_load_lists, timesync_set_dst_offset, timesync_set_time_zone};
use image::place::{SIZE, STORE};
use record::MOST_BYTES;
use std::io::{Result, Write};
use word::or_zero::put_u8;

// How many numbers there are of what a call returns, in its lowest byte: effects stand above.
const NUMBERS: u64 = 256;

// A step of a script.
#[derive(Clone, Copy)]
enum Step<'a> {
    UtcTime {
        utc_us: u64,
        granularity: u8,
        tick: u64,
    },
    LocalTime {
        tick: u64,
    },
    TimeZone(&'a [u8]),
    DSTOffset(&'a [u8]),
    LoadLists(&'a [u8]),
    // a source of node 1 and endpoint 2
    Trust {
        fab_idx: u8,
    },
    // from here on the device has no list store
    WithoutLists,
    Counts,
    Zone {
        index: usize,
    },
    Window {
        index: usize,
    },
}

impl<'a> Step<'a> {
    // The step at the front of a script: its letter, and what the letter takes. One number that is cut off reads as 0, in the last step then;
    // a letter of no other step is SetDSTOffset's.
    fn read(script: &mut Reader<'a>) -> Option<Step<'a>>
        ensures { IfSome result (λ step. length script.new.rest.now < length script.old.rest.now) }
    {
        match script.u8()? {
            b'U' => Some(Step::UtcTime {
                utc_us: script.u64()?,
                granularity: script.u8()?,
                tick: script.u64()?,
            }),
            b'L' => Some(Step::LocalTime {
                tick: script.u64().unwrap_or(0),
            }),
            b'Z' => Some(Step::TimeZone(script.bytes()?)),
            b'R' => Some(Step::LoadLists(script.bytes()?)),
            b'T' => Some(Step::Trust {
                fab_idx: script.u8().unwrap_or(0),
            }),
            b'N' => Some(Step::WithoutLists),
            b'C' => Some(Step::Counts),
            b'A' => Some(Step::Zone {
                index: script.u64().unwrap_or(0) as usize,
            }),
            b'B' => Some(Step::Window {
                index: script.u64().unwrap_or(0) as usize,
            }),
            _ => Some(Step::DSTOffset(script.bytes()?)),
        }
    }

    // Calls the entry point, and writes what it answers.
    fn run(self, out: &mut impl Write, image: &mut [u8]) -> Result<()> {
        let mut record = [0u8; MOST_BYTES];
        let mut used: u64 = 0;
        let returned = match self {
            Step::UtcTime {
                utc_us,
                granularity,
                tick,
            } => timesync_set_utc_time(image, utc_us, granularity, 0, 0, tick),
            Step::TimeZone(zones) => timesync_set_time_zone(image, zones, &mut record, &mut used),
            Step::DSTOffset(windows) => {
                timesync_set_dst_offset(image, windows, &mut record, &mut used)
            }
            Step::LoadLists(stored) => timesync_load_lists(image, 1, stored),
            Step::Trust { fab_idx } => timesync_set_trusted_time_source(image, fab_idx, 1, 1, 2),
            Step::WithoutLists => {
                put_u8(image, STORE, 0);
                return Ok(());
            }
            Step::LocalTime { tick } => return local(out, image, tick),
            Step::Counts => return listing::counts(out, image),
            Step::Zone { index } => return listing::zone(out, image, index),
            Step::Window { index } => return listing::window(out, image, index),
        };
        told(out, returned)
    }
}

// Writes the number of what a call returned: 0 where the call was taken.
pub(crate) fn told(out: &mut impl Write, returned: u64) -> Result<()> {
    write!(out, " {}", returned % NUMBERS)
}

// LocalTime at a tick.
fn local(out: &mut impl Write, image: &[u8], tick: u64) -> Result<()> {
    let mut there: u64 = 0;
    let mut local_us: u64 = 0;
    let returned = timesync_local_time(image, tick, &mut there, &mut local_us);
    if returned != 0 {
        return told(out, returned);
    }
    if there == 0 {
        write!(out, " null")
    } else {
        write!(out, " {local_us}")
    }
}

// Runs the steps of a script on a new device, and writes what each answers; it ends where no step can be read. The device's build moment
// and the client's period are 0.
pub(crate) fn script(out: &mut impl Write, s: &[u8]) -> Result<()> {
    let mut image = [0u8; SIZE];
    timesync_new(&mut image, 1, 2, 2, 0, 0);
    let mut script = Reader::new(s);
    while let Some(step) = Step::read(&mut script) {
        step.run(out, &mut image)?;
    }
    Ok(())
}
