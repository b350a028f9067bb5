// The next transition, and the walk from one to the next.
ghost use Rattle.std.specs.Prelude.{◌≡◌};
ghost use Rattle.model.specs.Lookups.{next_transition, zone_starts, window_bounds};
ghost use Rattle.model.specs.Walk as W;
ghost use Rattle.lookups.specs.Transitions.{sooner, soonest, moment_of, walk_owned};
ghost use Rattle.table.specs.Layout.{zones_in, windows_in, lists_in};

use crate::windows::window_end;
use crate::{MOST_MOMENTS, MOST_STEPS, Walk};
use table::layout::{START, windows, zones};
use word::or_zero::u64_at;

// The sooner of the best so far, 0 for none, and a moment, if that is after now. An `Option` for the best so far was tried: the walk then
// takes 1.7 times as many instructions, and more than the Rust's.
#[tactic(auto, unfolding(crate::specs::Transitions::sooner))]
fn sooner_of(utc: u64, best: u64, t: u64) -> u64
    ensures { result ≡ sooner utc best t }
{
    if t <= utc {
        return best;
    }
    if best == 0 {
        return t;
    }
    best.min(t)
}

// The soonest start of a zone after now, 0 for none.
fn zone_transition(table: &[u8], utc: u64) -> u64
    ensures { result ≡ soonest utc 0 (zone_starts (zones_in table.now)) }
{
    zones(table).iter().fold(0, |best, place| {
        sooner_of(utc, best, u64_at(place, START))
    })
}

// The sooner of the best so far and the starts and ends of the windows after now; 0, for no end, is after no moment.
fn window_transition(table: &[u8], utc: u64, sofar: u64) -> u64
    ensures { result ≡ soonest utc sofar (window_bounds (windows_in table.now)) }
{
    windows(table).iter().fold(sofar, |best, place| {
        let best = sooner_of(utc, best, u64_at(place, START));
        sooner_of(utc, best, window_end(place).unwrap_or(0))
    })
}

// A moment that was found, or none for 0.
#[tactic(auto, unfolding(crate::specs::Transitions::moment_of))]
fn moment_of(t: u64) -> Option<u64>
    ensures { result ≡ moment_of t }
{
    if t == 0 { None } else { Some(t) }
}

// The soonest start or end after now.
pub fn next_transition(table: &[u8], utc: u64) -> Option<u64>
    ensures { result ≡ next_transition (lists_in table.now) utc }
{
    moment_of(window_transition(table, utc, zone_transition(table, utc)))
}

// From a moment on to the next transition, until there is none. The walk is made in place: moments that are put into it at the end stood on
// the stack twice, and a caller's call missed its bound.
pub fn walk(table: &[u8], start: u64) -> Walk
    ensures { result ≡ walk_owned (W.walk (lists_in table.now) start) }
{
    let mut walk = Walk {
        moments: [0; MOST_MOMENTS],
        steps: 0,
    };
    walk.moments[0] = start;
    let mut at = start;
    for steps in 0..MOST_STEPS {
        let Some(next) = next_transition(table, at) else {
            walk.steps = steps;
            return walk;
        };
        walk.moments[steps + 1] = next;
        at = next;
    }
    walk.steps = MOST_STEPS;
    walk
}
