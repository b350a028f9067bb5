// What is looked up in the lists of a table, in their places: nothing is copied. A place is an array, so the tests of the readers of numbers
// are left out of what is compiled.
#![tactic(auto)]

pub mod transitions;
pub mod windows;
pub mod zones;

ghost use Rattle.std.specs.Prelude.{suc, ◌≡◌, cond, length, take, option_copied, None, Some};
ghost use Rattle.model.specs.Output.{too_short, copied_over, name_or};
ghost use Rattle.lookups.specs.Laws.{shown_name};

pub use record::NamePlace;
use table::layout::{MOST_WINDOWS, MOST_ZONES};

// Where the offset of an entry stands in its place.
const OFFSET: usize = 0;

// A zone, its name by its place in the table; by default none: offset 0 from moment 0 with no name.
#[derive(Clone, Copy, Default)]
pub struct ZoneShown {
    pub offset: i32,
    pub valid_at: u64,
    pub name: Option<NamePlace>,
}

// A window of summer time; a missing end means that it is open.
#[derive(Clone, Copy)]
pub struct DSTOffsetEntry {
    pub offset: i32,
    pub valid_starting: u64,
    pub valid_until: Option<u64>,
}

// The longest walk: a start for each zone, a start and an end for each window.
pub const MOST_STEPS: usize = MOST_ZONES + 2 * MOST_WINDOWS;

// How many moments the longest walk has.
pub const MOST_MOMENTS: usize = MOST_STEPS + 1;

// The moments walked, the starting moment first, zeros after the last; and how many steps it took.
// There is no heap, so the moments stand in an array with room for the longest walk.
#[derive(Clone, Copy)]
pub struct Walk {
    pub moments: [u64; MOST_MOMENTS],
    pub steps: usize,
}

impl Walk {
    // The moments walked, with nothing after the last.
    pub fn walked(&self) -> &[u64]
        ensures { result.now ≡ take (suc self.now.steps) self.now.moments }
    {
        &self.moments[..self.steps.min(MOST_STEPS) + 1]
    }
}

impl ZoneShown {
    // The name, or what of it stands in the table.
    pub fn name_in<'a>(&self, table: &'a [u8]) -> Option<&'a [u8]>
        ensures { option_copied result ≡ shown_name table.now self.now }
    {
        let place = self.name?;
        let rest = table.get(place.at..).unwrap_or_default();
        Some(&rest[..place.len.min(rest.len())])
    }

    // The name to the front of `out` where it has room, and how long it is; else nothing is written.
    #[tactic(auto, using(word::proofs::Writes::part_inside, word::proofs::Writes::copied_inside))]
    pub fn put_name(&self, table: &[u8], out: &mut [u8]) -> Option<usize>
        ensures length { let n = name_or (shown_name table.now self.now) in
            result ≡ cond (too_short (length out.old) n) None (Some (length n)) }
        ensures copied { let n = name_or (shown_name table.now self.now) in
            out.new ≡ cond (too_short (length out.old) n) out.old (copied_over n out.old) }
    {
        let Some(place) = self.name else {
            return Some(0);
        };
        let from = place.at.min(table.len());
        let len = place.len.min(table.len() - from);
        word::copy(out, 0, table, from, len).then_some(len)
    }
}
