// The places of a table, and its small numbers.
ghost use Rattle.std.specs.Prelude.{◌≡◌};
ghost use Rattle.table.specs.Layout.{count_in, zone_count, window_count, zone_places, window_places, zone_limit_in, window_limit_in, generation_in, counted, new_table};
ghost use Rattle.table.specs.Limits.{rules_of};

use crate::Limits;
// An entry stands in its place as in a record.
pub(crate) use record::entry::ENDED;
pub use record::entry::{END, MARK, MOST_NAME, NAME, NAME_LENGTH, START};
// There are places for as many entries as the largest record has.
pub use record::{MOST_WINDOWS, MOST_ZONES};
use word::or_zero::u8_at;

// How many bytes a table has.
pub const SIZE: usize = 1040;

// Limits, counts and the generation.
pub(crate) const ZONE_LIMIT: usize = 0;

pub(crate) const WINDOW_LIMIT: usize = 1;

pub(crate) const ZONE_COUNT: usize = 2;

pub(crate) const WINDOW_COUNT: usize = 3;

pub(crate) const GENERATION: usize = 4;

// The first zone and the first window, and how many bytes the place of each has.
pub const ZONES: usize = 16;

pub const ZONE_SIZE: usize = 80;

pub const WINDOWS: usize = 656;

pub const WINDOW_SIZE: usize = 24;

// How many entries the count at `at` says: at most so many, and none in a slice that is shorter than a table.
#[tactic(auto, using(crate::proofs::Counts::count_short, crate::proofs::Counts::count_whole))]
fn count_at(table: &[u8], at: usize, most: usize) -> usize
    ensures { result ≡ count_in at most table.now }
{
    if table.len() < SIZE {
        return 0;
    }
    (u8_at(table, at) as usize).min(most)
}

// How many zones there are.
pub fn zone_count(table: &[u8]) -> usize
    ensures { result ≡ zone_count table.now }
{
    count_at(table, ZONE_COUNT, MOST_ZONES)
}

// How many windows there are.
pub fn window_count(table: &[u8]) -> usize
    ensures { result ≡ window_count table.now }
{
    count_at(table, WINDOW_COUNT, MOST_WINDOWS)
}

// The places of the zones in use, in order.
#[tactic(auto, using(crate::proofs::Places::zones_used, crate::proofs::Places::no_zones))]
pub fn zones(table: &[u8]) -> &[[u8; ZONE_SIZE]]
    ensures { result.now ≡ zone_places table.now }
{
    let Some(places) = table.get(ZONES..WINDOWS) else {
        return &[];
    };
    &places.as_chunks().0[..zone_count(table)]
}

// The places of the windows in use, in order. Beside `zones`: one function over both would take the bytes and the count, and be no shorter.
#[tactic(auto, using(crate::proofs::Places::windows_used, crate::proofs::Places::no_windows))]
pub fn windows(table: &[u8]) -> &[[u8; WINDOW_SIZE]]
    ensures { result.now ≡ window_places table.now }
{
    let Some(places) = table.get(WINDOWS..SIZE) else {
        return &[];
    };
    &places.as_chunks().0[..window_count(table)]
}

// How many zones the store takes.
pub fn zone_limit(table: &[u8]) -> usize
    ensures { result ≡ zone_limit_in table.now }
{
    (u8_at(table, ZONE_LIMIT) as usize).min(MOST_ZONES)
}

// How many windows the store takes.
pub fn window_limit(table: &[u8]) -> usize
    ensures { result ≡ window_limit_in table.now }
{
    (u8_at(table, WINDOW_LIMIT) as usize).min(MOST_WINDOWS)
}

// How many changes there were.
pub fn generation(table: &[u8]) -> u32
    ensures { result ≡ generation_in table.now }
{
    word::or_zero::u32_at(table, GENERATION)
}

// Counts one change more; after the largest number comes 0.
#[tactic(auto, unfolding(crate::specs::Layout::counted))]
pub(crate) fn count_change(table: &mut [u8])
    ensures { table.new ≡ counted table.old }
{
    let next = generation(table).wrapping_add(1);
    word::put_u32(table, GENERATION, next);
}

// Writes a new table with these limits: no zone, no window and generation 0; on a slice that is too short nothing is written.
pub fn put_new(table: &mut [u8], limits: Limits)
    ensures { table.new ≡ new_table table.old (rules_of limits) }
{
    if SIZE <= table.len() {
        table[ZONE_LIMIT] = limits.zones;
        table[WINDOW_LIMIT] = limits.windows;
        table[ZONE_COUNT..SIZE].fill(0);
    }
}
