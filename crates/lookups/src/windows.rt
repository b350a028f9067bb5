// Lookups in the list of windows.
ghost use Rattle.std.specs.Prelude.{◌≡◌};
ghost use Rattle.model.specs.Lookups.{is_active, is_usable, active_offset, last_active_window, offset_of, usable, table_empty};
ghost use Rattle.table.specs.Layout.{window_at, lists_in};
ghost use Rattle.lookups.specs.Shown.{window_shown, window_listed_in};

use crate::{DSTOffsetEntry, OFFSET};
use table::layout::{END, MARK, START, WINDOW_SIZE, windows};
use word::or_zero::{i32_at, u64_at};

// The end of the window in a place, if it has one.
pub(crate) fn window_end(place: &[u8; WINDOW_SIZE]) -> Option<u64>
    ensures { result ≡ (window_at place.now 0).until }
{
    if place[MARK] == 0 {
        return None;
    }
    Some(u64_at(place, END))
}

// The window is open or its end is after now, started or not.
fn is_usable(place: &[u8; WINDOW_SIZE], utc: u64) -> bool
    ensures { result ≡ is_usable utc (window_at place.now 0) }
{
    window_end(place).is_none_or(|end| utc < end)
}

// The window has started and has not ended; the start of one that has ended is not read.
fn is_active(place: &[u8; WINDOW_SIZE], utc: u64) -> bool
    ensures { result ≡ is_active utc (window_at place.now 0) }
{
    is_usable(place, utc) && u64_at(place, START) <= utc
}

// The window in a place.
fn window_shown(place: &[u8; WINDOW_SIZE]) -> DSTOffsetEntry
    ensures { result ≡ window_shown (window_at place.now 0) }
{
    DSTOffsetEntry {
        offset: i32_at(place, OFFSET),
        valid_starting: u64_at(place, START),
        valid_until: window_end(place),
    }
}

// The offset of the first active window.
pub fn active_dst_offset(table: &[u8], utc: u64) -> Option<i32>
    ensures { result ≡ active_offset (lists_in table.now) utc }
{
    let active = windows(table).iter().find(|place| is_active(place, utc));
    active.map(|place| i32_at(place, OFFSET))
}

// The offset of the last active window, looked for from the end.
pub fn last_active_dst_offset(table: &[u8], utc: u64) -> Option<i32>
    ensures { result ≡ offset_of (last_active_window (lists_in table.now) utc) }
{
    let active = windows(table)
        .iter()
        .rev()
        .find(|place| is_active(place, utc));
    active.map(|place| i32_at(place, OFFSET))
}

// Some window is open or ends after now, looked for from the end: the last window runs out last.
pub fn dst_usable(table: &[u8], utc: u64) -> bool
    ensures { result ≡ usable (lists_in table.now) utc }
{
    windows(table)
        .iter()
        .rev()
        .any(|place| is_usable(place, utc))
}

// There is no window at all.
#[tactic(auto, using(crate::proofs::Places::none_there))]
pub fn dst_table_empty(table: &[u8]) -> bool
    ensures { result ≡ table_empty (lists_in table.now) }
{
    windows(table).is_empty()
}

// The window at an index.
#[tactic(auto, using(crate::proofs::Places::window_listed, std::proofs::lemmas::Option::slice_get_cases))]
pub fn dst_offset_at(table: &[u8], i: usize) -> Option<DSTOffsetEntry>
    ensures { result ≡ window_listed_in table.now i }
{
    windows(table).get(i).map(window_shown)
}
