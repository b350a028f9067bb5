// What is answered about a store: a whole history is run on it, and then it is walked.
use crate::text;
use lookups::MOST_MOMENTS;
use record::MOST_BYTES;
use record::entry::MOST_NAME;
use std::io::{Result, Write};
use word::WORD;

// Room for every moment of a walk.
const MOMENTS_MAX: usize = MOST_MOMENTS * WORD;

// The limits of a history and the moment that its walk starts from.
#[derive(Clone, Copy)]
struct Asked {
    zone_limit: usize,
    window_limit: usize,
    start: u64,
}

impl Asked {
    // The three numbers behind the letter of a row.
    fn read(row: &[u8]) -> Asked {
        Asked {
            zone_limit: text::number(row, 1) as usize,
            window_limit: text::number(row, 2) as usize,
            start: text::number(row, 3),
        }
    }
}

// Writes the number of steps and the moments of a walk: the starting one, and one for each step.
fn walked(out: &mut impl Write, moments: &[u8], steps: u64) -> Result<()> {
    write!(out, "{steps} steps:")?;
    let (moments, _) = moments.as_chunks::<WORD>();
    for moment in moments.iter().take((steps as usize).saturating_add(1)) {
        write!(out, " {}", u64::from_le_bytes(*moment))?;
    }
    Ok(())
}

// Runs a history at its limits and walks from its starting moment; what else is looked up is not shown.
// Each output is a variable of its own, as the call for C wants it.
fn run(asked: Asked, history: &[u8], moments: &mut [u8], steps: &mut u64) -> u64 {
    let mut name = [0u8; MOST_NAME];
    let mut record = [0u8; MOST_BYTES];
    let mut zone: i32 = 0;
    let mut named: u64 = 0;
    let mut name_used: u64 = 0;
    let mut active: u64 = 0;
    let mut window: i32 = 0;
    let mut usable: u64 = 0;
    let mut has_next: u64 = 0;
    let mut next: u64 = 0;
    let mut used: u64 = 0;
    let mut generation: u64 = 0;
    replay::timesync_replay(
        asked.zone_limit,
        asked.window_limit,
        history,
        asked.start,
        asked.start,
        moments,
        steps,
        &mut name,
        &mut zone,
        &mut named,
        &mut name_used,
        &mut active,
        &mut window,
        &mut usable,
        &mut has_next,
        &mut next,
        &mut record,
        &mut used,
        &mut generation,
    )
}

// Runs a history and writes the walk: zone limit, window limit, starting moment, and the calls in hexadecimal digits.
pub(crate) fn replayed(out: &mut impl Write, row: &[u8], history: &[u8]) -> Result<()> {
    let mut moments = [0u8; MOMENTS_MAX];
    let mut steps: u64 = 0;
    match run(Asked::read(row), history, &mut moments, &mut steps) {
        0 => walked(out, &moments, steps),
        refusal => write!(out, "refused {refusal}"),
    }
}
