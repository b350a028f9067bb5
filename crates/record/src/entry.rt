// Reads one entry at a place: a zone or a window. Nothing is copied.
ghost use Rattle.std.specs.Prelude.{List, ◌≡◌, ℕ, Option};
ghost use Rattle.model.specs.Lists.{Zone, Window};
ghost use Rattle.model.specs.Bytes.{Front, read_zone, read_window};
ghost use Rattle.record.specs.Fronts.{head_at, name_there, zone_at, window_at, next_zone, next_window};
ghost use Rattle.record.specs.Entries.{ReadAt};

use crate::{DSTOffsetRead, NamePlace, TimeZoneRead};

// Inside an entry: the start and the mark behind the offset. Where the mark is 0 the entry ends at END; behind it stand a window's end,
// up to ENDED, or the length of a zone's name and the name.
pub const START: usize = 4;

pub const MARK: usize = 12;

pub const END: usize = 13;

pub const ENDED: usize = 21;

pub const NAME_LENGTH: usize = 13;

pub const NAME: usize = 14;

// The longest name.
pub const MOST_NAME: usize = 64;

// An entry of a section, as it is read at a place. The impls and the name are read in place: by calls, a refused SetTimeZone of 8 zones takes
// 80 instructions more, and may take no more than five times the Rust's.
pub trait Entry: Copy {
    // What an entry stands for, and how one is read off the front of some bytes.
    ghost meaning: { Type 0 };

    ghost read_one: { List ℕ → Front meaning };

    // The entry at a place, and the place after an entry.
    ghost found_at: { List ℕ → ℕ → Option Self };

    ghost next_of: { Self → ℕ };

    // The entry at `at`.
    fn read_at(s: &[u8], at: usize) -> Option<Self>
        ensures found { result ≡ found_at s.now at }
        ensures read { ReadAt read_one next_of s.now at result };

    // The place after the entry.
    fn next(&self) -> usize
        ensures { result ≡ next_of self.now };
}

impl Entry for TimeZoneRead {
    ghost meaning = { Zone };

    ghost read_one = { read_zone };

    ghost found_at = { zone_at };

    ghost next_of = { next_zone };

    #[inline(always)]
    #[tactic(auto, using(crate::proofs::Entries::of_zone, crate::proofs::Sections::zone_reads))]
    fn read_at(s: &[u8], at: usize) -> Option<TimeZoneRead> {
        let head = head_at(s, at)?;
        let (name, next) = match head.mark {
            0 => (None, at + END),
            1 => {
                let name = name_at(s, at + NAME_LENGTH)?;
                (Some(name), name.at + name.len)
            }
            _ => return None,
        };
        Some(TimeZoneRead {
            offset: head.offset,
            valid_at: head.start,
            name,
            next,
        })
    }

    fn next(&self) -> usize {
        self.next
    }
}

impl Entry for DSTOffsetRead {
    ghost meaning = { Window };

    ghost read_one = { read_window };

    ghost found_at = { window_at };

    ghost next_of = { next_window };

    #[inline(always)]
    #[tactic(auto, using(crate::proofs::Entries::of_window, crate::proofs::Sections::window_reads, word::proofs::Answers::u64_present))]
    fn read_at(s: &[u8], at: usize) -> Option<DSTOffsetRead> {
        let head = head_at(s, at)?;
        let (valid_until, next) = match head.mark {
            0 => (None, at + END),
            1 => (Some(word::u64_at(s, at + END)?), at + ENDED),
            _ => return None,
        };
        Some(DSTOffsetRead {
            offset: head.offset,
            valid_starting: head.start,
            valid_until,
            next,
        })
    }

    fn next(&self) -> usize {
        self.next
    }
}

// The offset, the start and the mark of an entry.
#[derive(Clone, Copy)]
struct Head {
    offset: i32,
    start: u64,
    mark: u8,
}

// The head of the entry at `at`.
#[tactic(auto, using(crate::proofs::Heads::head_short, std::proofs::lemmas::List::take_rest))]
fn head_at(s: &[u8], at: usize) -> Option<Head>
    ensures { result ≡ head_at s.now at }
{
    let (offset, rest) = s.get(at..)?.split_first_chunk()?;
    let (start, rest) = rest.split_first_chunk()?;
    let mark = *rest.first()?;
    Some(Head {
        offset: i32::from_le_bytes(*offset),
        start: u64::from_le_bytes(*start),
        mark,
    })
}

// The name whose length byte stands at `at`.
#[inline(always)]
#[tactic(auto, unfolding(crate::specs::Fronts::name_there))]
fn name_at(s: &[u8], at: usize) -> Option<NamePlace>
    ensures { result ≡ name_there s.now at }
{
    let len = *s.get(at)? as usize;
    word::text::utf8_at(s, at + 1, len).then_some(NamePlace { at: at + 1, len })
}
