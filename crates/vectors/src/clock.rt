// What a clock answers to a script: one clock of build moment 0, which is lent to each call that changes it and is read by value. What prints
// an answer is a function and no `Display`, since the types are those of other crates.
ghost use Rattle.std.specs.Prelude.{◌<◌, ◌≤◌, length, IfSome};

use crate::reader::Reader;
use model::{TimeGranularity, TimeSource};
use rtc::{Rtc, SourceChange, TrustedTimeSource, UtcTime};
use std::io::{Result, Write};

// A setting, with the numbers of its granularity and its time source. Where it persists, its moment is stored if it is a day or more from
// the persisted one.
#[derive(Clone, Copy)]
struct Setting {
    persists: bool,
    utc_us: u64,
    granularity: u8,
    source: u8,
    tick: u64,
}

impl Setting {
    fn read(script: &mut Reader, persists: bool) -> Option<Setting>
        ensures { IfSome result (λ setting. length script.new.rest.now ≤ length script.old.rest.now) }
    {
        Some(Setting {
            persists,
            utc_us: script.u64()?,
            granularity: script.u8()?,
            source: script.u8()?,
            tick: script.u64()?,
        })
    }

    // Sets the clock; a number that names no granularity or no time source changes nothing.
    fn run(self, out: &mut impl Write, rtc: &mut Rtc) -> Result<()> {
        let Ok(granularity) = TimeGranularity::try_from(self.granularity) else {
            return write!(out, "no granularity");
        };
        let Ok(source) = TimeSource::try_from(self.source) else {
            return write!(out, "no time source");
        };
        if !self.persists {
            let changed = rtc_lent::set_utc_time(rtc, self.utc_us, granularity, source, self.tick);
            return told_setting(out, changed);
        }
        let answer = rtc_lent::set_utc_time_persist(
            rtc,
            self.utc_us,
            granularity,
            source,
            self.tick,
        );
        told_setting(out, answer.changed)?;
        match answer.stored {
            None => write!(out, ", not stored"),
            Some(utc_us) => write!(out, ", stored {utc_us}"),
        }
    }
}

// What a load finds, and the build moment.
#[derive(Clone, Copy)]
struct Found {
    source: Option<TrustedTimeSource>,
    utc_us: Option<u64>,
    build: u64,
}

impl Found {
    // Each value stands there even where its mark says that it is not found.
    fn read(script: &mut Reader) -> Option<Found>
        ensures { IfSome result (λ found. length script.new.rest.now ≤ length script.old.rest.now) }
    {
        let source = source(script)?;
        let has_source = script.u8()? != 0;
        let has_moment = script.u8()? != 0;
        let utc_us = script.u64()?;
        Some(Found {
            source: has_source.then_some(source),
            utc_us: has_moment.then_some(utc_us),
            build: script.u64()?,
        })
    }
}

// A trusted time source.
fn source(script: &mut Reader) -> Option<TrustedTimeSource>
    ensures { IfSome result (λ source. length script.new.rest.now ≤ length script.old.rest.now) }
{
    Some(TrustedTimeSource {
        fab_idx: script.u8()?,
        node_id: script.u64()?,
        endpoint: script.u16()?,
    })
}

// A step of a script.
#[derive(Clone, Copy)]
enum Step {
    Set(Setting),
    Trust(Option<TrustedTimeSource>),
    Load(Found),
    Reset { build: u64 },
    Read { tick: u64 },
}

impl Step {
    // The step at the front of a script: its letter, and what the letter takes.
    fn read(script: &mut Reader) -> Option<Step>
        ensures { IfSome result (λ step. length script.new.rest.now < length script.old.rest.now) }
    {
        match script.u8()? {
            b'S' => Some(Step::Set(Setting::read(script, false)?)),
            b'P' => Some(Step::Set(Setting::read(script, true)?)),
            b'T' => Some(Step::Trust(Some(source(script)?))),
            b'C' => Some(Step::Trust(None)),
            b'L' => Some(Step::Load(Found::read(script)?)),
            b'R' => Some(Step::Reset {
                build: script.u64()?,
            }),
            b'U' => Some(Step::Read {
                tick: script.u64()?,
            }),
            _ => None,
        }
    }

    fn run(self, out: &mut impl Write, rtc: &mut Rtc) -> Result<()> {
        match self {
            Step::Set(setting) => setting.run(out, rtc),
            Step::Trust(source) => trust(out, rtc, source),
            Step::Load(found) => load(out, rtc, found),
            Step::Reset { build } => {
                rtc_lent::reset_persist(rtc, build);
                write!(out, "reset")
            }
            Step::Read { tick } => reading(out, *rtc, tick),
        }
    }
}

// Writes the fabric index, the node and the endpoint of a source.
fn told_source(out: &mut impl Write, source: TrustedTimeSource) -> Result<()> {
    let TrustedTimeSource {
        fab_idx,
        node_id,
        endpoint,
    } = source;
    write!(out, " {fab_idx} {node_id} {endpoint}")
}

// Writes whether a setting changed something.
fn told_setting(out: &mut impl Write, changed: bool) -> Result<()> {
    if changed {
        write!(out, "changed")
    } else {
        write!(out, "same")
    }
}

// A trusted time source is installed, or cleared.
fn trust(out: &mut impl Write, rtc: &mut Rtc, source: Option<TrustedTimeSource>) -> Result<()> {
    match rtc_lent::set_trusted_time_source(rtc, source) {
        SourceChange::Same => write!(out, "same source"),
        SourceChange::Installed(new) => {
            write!(out, "stored source")?;
            told_source(out, new)
        }
        SourceChange::Cleared => write!(out, "removed source"),
    }
}

// A load of what is found.
fn load(out: &mut impl Write, rtc: &mut Rtc, found: Found) -> Result<()> {
    match rtc_lent::load_persist(rtc, found.build, found.utc_us, found.source) {
        Ok(()) => write!(out, "loaded"),
        Err(cause) => write!(out, "refused {}", u8::from(cause)),
    }
}

// Writes a reading of the UTC time.
fn told_utc(out: &mut impl Write, utc: UtcTime) -> Result<()> {
    match utc {
        UtcTime::Reliable(utc_us) => write!(out, "reliable {utc_us}"),
        UtcTime::LastKnown(utc_us) => write!(out, "last known {utc_us}"),
    }
}

// Writes the trusted time source, or that there is none.
fn told_trusted(out: &mut impl Write, trusted: Option<TrustedTimeSource>) -> Result<()> {
    match trusted {
        None => write!(out, ", none trusted"),
        Some(source) => {
            write!(out, ", trusted")?;
            told_source(out, source)
        }
    }
}

// Writes everything that a clock says of itself at a tick.
fn reading(out: &mut impl Write, rtc: Rtc, tick: u64) -> Result<()> {
    told_utc(out, rtc.utc_time(tick))?;
    let granularity = u8::from(rtc.utc_time_granularity());
    let source = u8::from(rtc.utc_time_source());
    write!(out, ", granularity {granularity}, time source {source}")?;
    told_trusted(out, rtc.trusted_time_source)
}

// Runs the steps of a script on one clock, and writes what each answers; it ends where no step can be read.
pub(crate) fn script(out: &mut impl Write, s: &[u8]) -> Result<()> {
    let mut rtc = Rtc::new(0);
    let mut script = Reader::new(s);
    while !script.is_empty() {
        let Some(step) = Step::read(&mut script) else {
            return write!(out, "no step");
        };
        step.run(out, &mut rtc)?;
        if !script.is_empty() {
            write!(out, "; ")?;
        }
    }
    Ok(())
}
