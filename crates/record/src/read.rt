// Reads sections and records; nothing is copied.
ghost use Rattle.std.specs.Prelude.{◌≡◌, length};
ghost use Rattle.record.specs.Fronts.{section_at, section_zone, section_window, is_whole, zones_whole, windows_whole, record_at};

use crate::entry::Entry;
use crate::section::{SectionReader, nth};
use crate::{DSTOffsetRead, RecordRead, SectionRead, TimeZoneRead};

// Entry i of the section of zones at the front.
pub fn time_zone(s: &[u8], i: usize) -> Option<TimeZoneRead>
    ensures { result ≡ section_zone s.now i }
{
    nth::<TimeZoneRead>(s, i)
}

// Entry i of the section of windows at the front.
pub fn dst_offset(s: &[u8], i: usize) -> Option<DSTOffsetRead>
    ensures { result ≡ section_window s.now i }
{
    nth::<DSTOffsetRead>(s, i)
}

// One section and nothing else.
fn whole<E: Entry>(s: &[u8]) -> Option<SectionRead>
    ensures { result ≡ is_whole (length s.now) (section_at E.read_one s.now 0) }
{
    let mut reader = SectionReader::new(s);
    let count = reader.take::<E>()?;
    reader.ended().then_some(SectionRead {
        count,
        next: reader.at,
    })
}

// A request for SetTimeZone: one section of zones and nothing else.
#[tactic(auto, unfolding(crate::specs::Fronts::zones_whole))]
pub fn time_zones(s: &[u8]) -> Option<SectionRead>
    ensures { result ≡ zones_whole s.now }
{
    whole::<TimeZoneRead>(s)
}

// A request for SetDSTOffset: one section of windows and nothing else.
#[tactic(auto, unfolding(crate::specs::Fronts::windows_whole))]
pub fn dst_offsets(s: &[u8]) -> Option<SectionRead>
    ensures { result ≡ windows_whole s.now }
{
    whole::<DSTOffsetRead>(s)
}

// A stored record: a section of zones, one of windows, and nothing else.
#[tactic(auto, using(crate::proofs::Records::of_record))]
pub fn record(s: &[u8]) -> Option<RecordRead>
    ensures { result ≡ record_at s.now }
{
    let mut reader = SectionReader::new(s);
    let zones = reader.take::<TimeZoneRead>()?;
    let at = reader.at;
    let windows = reader.take::<DSTOffsetRead>()?;
    reader.ended().then_some(RecordRead { zones, at, windows })
}
