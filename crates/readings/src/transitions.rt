// The next transition, the walk, and the record.
ghost use Rattle.std.specs.Prelude.{◌≡◌, length};
ghost use Rattle.model.specs.Answers.{number_of};
ghost use Rattle.model.specs.Output.{leaves, leaves_copy, mark_of, or_zero};
ghost use Rattle.readings.specs.Readings.{next_transition, walked, walk_bytes, record_read, record_bytes};
ghost use Rattle.readings.specs.There.{told, counted};

use crate::{lists, tell, tell_option};
use model::Refusal;

// The smallest start or end after now, or that there is none.
pub fn next_transition(image: &[u8], utc: u64, there: &mut u64, moment: &mut u64) -> u64
    ensures { let r = next_transition image.now utc in
        (result ≡ number_of r) × (there.new ≡ leaves r mark_of there.old) × (moment.new ≡ leaves r or_zero moment.old) }
{
    let next = lists(image).map(move |table| lookups::transitions::next_transition(table, utc));
    tell_option(next, 0, there, moment)
}

// The walk, its moments to the front of `moments` where they have room: how many steps it takes.
fn walked(image: &[u8], start: u64, moments: &mut [u8]) -> Result<u64, Refusal>
    ensures { let r = walked image.now start (length moments.old) in
        (told result ≡ counted r (λ w. w.steps)) × (moments.new ≡ leaves_copy r walk_bytes moments.old) }
{
    let table = lists(image)?;
    let walk = lookups::transitions::walk(table, start);
    let walked = walk.walked();
    if word::put_u64s(moments, walked, walked.len()) {
        Ok(walk.steps as u64)
    } else {
        Err(Refusal::NoSpace)
    }
}

// The walk: its moments to the front of `moments`, 8 bytes each and the starting moment first, and the number of steps.
pub fn walk(image: &[u8], start: u64, moments: &mut [u8], steps: &mut u64) -> u64
    ensures { let r = walked image.now start (length moments.old) in
        (result ≡ number_of r)
        × (moments.new ≡ leaves_copy r walk_bytes moments.old)
        × (steps.new ≡ leaves r (λ w. w.steps) steps.old) }
{
    tell(walked(image, start, moments), steps)
}

// The record of both lists to the front of `out`, where it has room: its length.
#[tactic(auto, using(crate::proofs::Answered::record_is))]
fn record(image: &[u8], out: &mut [u8]) -> Result<u64, Refusal>
    ensures { let r = record_read image.now (length out.old) in
        (told result ≡ counted r (λ b. length b)) × (out.new ≡ leaves_copy r record_bytes out.old) }
{
    let used = table::write::put(lists(image)?, out).ok_or(Refusal::NoSpace)?;
    Ok(used as u64)
}

// The record of both lists to the front of `out`, and its length.
pub fn stored(image: &[u8], out: &mut [u8], used: &mut u64) -> u64
    ensures { let r = record_read image.now (length out.old) in
        (result ≡ number_of r)
        × (out.new ≡ leaves_copy r record_bytes out.old)
        × (used.new ≡ leaves r (λ b. length b) used.old) }
{
    tell(record(image, out), used)
}
