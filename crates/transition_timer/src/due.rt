// Which events are due, and how long the timer sleeps.
ghost use Rattle.std.specs.Prelude.{◌≡◌};
ghost use Rattle.model.specs.Timer.{zone_due, active_due, empty_due};
ghost use Rattle.transition_timer.specs.Meaning.{seen_of, timer_of, sleep_by};

use crate::{Seen, Sleep};

// How far past a transition the timer looks, in microseconds.
const MARGIN: u64 = 100_000;

// TimeZoneStatus is due: the zone's offset is another one; never at the first look.
pub fn zone_due(last: Option<Seen>, new: Seen) -> bool
    ensures { result ≡ zone_due (timer_of last) (seen_of new) }
{
    last.is_some_and(|old| old.offset != new.offset)
}

// DSTStatus is due: a window became active or inactive; at the first look only where one is active.
pub fn active_due(last: Option<Seen>, new: Seen) -> bool
    ensures { result ≡ active_due (timer_of last) (seen_of new) }
{
    last.map_or(new.active, |old| old.active != new.active)
}

// DSTTableEmpty is due: usable became unusable; never at the first look.
pub fn empty_due(last: Option<Seen>, new: Seen) -> bool
    ensures { result ≡ empty_due (timer_of last) (seen_of new) }
{
    last.is_some_and(|old| old.usable && !new.usable)
}

// The sleep until past the next transition, held at the largest number; with no next transition until woken.
pub fn sleep_until(next: Option<u64>, now: u64) -> Sleep
    ensures { result ≡ sleep_by next now }
{
    next.map_or(Sleep::UntilWoken, |at| {
        Sleep::AtMost(at.saturating_sub(now).saturating_add(MARGIN))
    })
}
