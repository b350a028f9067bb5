// Which list requests and stored records are accepted, straight from their bytes.
#![tactic(auto)]

mod rule;
mod windows;
mod zones;

ghost use Rattle.std.specs.Prelude.{◌≡◌, ◌↔◌};
ghost use Rattle.record.specs.Fronts.{zones_whole, windows_whole, record_at};
ghost use Rattle.rules.specs.Verdicts.{zones_tested, windows_tested, record_tested};
ghost use Rattle.rules.specs.Entries.{lists_tested};

use model::Refusal;
use record::section::SectionReader;
use record::{DSTOffsetRead, TimeZoneRead};
use rule::{request, take};

// What SetTimeZone says of a request: Unreadable exactly where `record::read::time_zones` reads none.
#[tactic(auto, using(crate::proofs::Whole::zones_asked, crate::proofs::Readers::zones_unread))]
pub fn set_time_zone(s: &[u8], limit: usize) -> Result<(), Refusal>
    ensures verdict { result ≡ zones_tested limit s.now }
    ensures unread { result ≡ Err Refusal.Unreadable ↔ zones_whole s.now ≡ None }
{
    request::<TimeZoneRead>(s, limit)
}

// What SetDSTOffset says of a request: Unreadable exactly where `record::read::dst_offsets` reads none.
#[tactic(auto, using(crate::proofs::Whole::windows_asked, crate::proofs::Readers::windows_unread))]
pub fn set_dst_offset(s: &[u8], limit: usize) -> Result<(), Refusal>
    ensures verdict { result ≡ windows_tested limit s.now }
    ensures unread { result ≡ Err Refusal.Unreadable ↔ windows_whole s.now ≡ None }
{
    request::<DSTOffsetRead>(s, limit)
}

// What is said of a record's lists, where it is readable: a section of zones, one of windows, and nothing else.
#[tactic(auto, using(crate::proofs::Whole::of_record))]
fn lists(s: &[u8], zone_limit: usize, window_limit: usize) -> Option<Result<(), Refusal>>
    ensures { result ≡ lists_tested zone_limit window_limit s.now }
{
    let mut reader = SectionReader::new(s);
    let zones = take::<TimeZoneRead>(&mut reader, zone_limit)?;
    let windows = take::<DSTOffsetRead>(&mut reader, window_limit)?;
    reader.ended().then_some(zones.and(windows))
}

// Whether a stored record is taken; whatever the cause, one that is not is a bad record, as is one that `record::read::record` cannot read.
#[tactic(auto, using(crate::proofs::Whole::of_stored))]
pub fn stored(s: &[u8], zone_limit: usize, window_limit: usize) -> Result<(), Refusal>
    ensures verdict { result ≡ record_tested zone_limit window_limit s.now }
    ensures unread { record_at s.now ≡ None → result ≡ Err Refusal.BadRecord }
{
    let Some(verdict) = lists(s, zone_limit, window_limit) else {
        return Err(Refusal::BadRecord);
    };
    verdict.or(Err(Refusal::BadRecord))
}
