// What is answered about bytes: UTF-8, sections, records.
use model::Refusal;
use record::entry::Entry;
use record::{DSTOffsetRead, RecordRead, SectionRead, TimeZoneRead, read};
use std::io::{Result, Write};
use table::layout::{MOST_WINDOWS, MOST_ZONES};

// Whether the bytes are well-formed UTF-8.
pub(crate) fn utf8(out: &mut impl Write, s: &[u8]) -> Result<()> {
    if word::text::utf8(s) {
        write!(out, "well-formed")
    } else {
        write!(out, "malformed")
    }
}

// An entry of a section that can be written.
trait Shown: Entry {
    // Entry i of the section at the front.
    fn at(s: &[u8], i: usize) -> Option<Self>;

    fn show<W: Write>(&self, out: &mut W) -> Result<()>;
}

impl Shown for TimeZoneRead {
    fn at(s: &[u8], i: usize) -> Option<TimeZoneRead> {
        read::time_zone(s, i)
    }

    // The zone, and how many bytes its name has.
    fn show<W: Write>(&self, out: &mut W) -> Result<()> {
        write!(out, "{} from {}", self.offset, self.valid_at)?;
        match self.name {
            None => Ok(()),
            Some(name) => write!(out, " named by {}", name.len),
        }
    }
}

impl Shown for DSTOffsetRead {
    fn at(s: &[u8], i: usize) -> Option<DSTOffsetRead> {
        read::dst_offset(s, i)
    }

    fn show<W: Write>(&self, out: &mut W) -> Result<()> {
        write!(out, "{} from {}", self.offset, self.valid_starting)?;
        match self.valid_until {
            None => write!(out, ", open"),
            Some(end) => write!(out, " to {end}"),
        }
    }
}

// Writes how many entries a section has and each of them, or that the section cannot be read. The rules, which ship, read a request by
// themselves: where they find it readable and the reader does not, or the other way round, that is written too.
fn section<E: Shown>(
    out: &mut impl Write,
    s: &[u8],
    found: Option<SectionRead>,
    readable: bool,
) -> Result<()> {
    if found.is_some() != readable {
        write!(out, "the rules disagree: ")?;
    }
    let Some(section) = found else {
        return write!(out, "unreadable");
    };
    write!(out, "{}", section.count)?;
    for i in 0..section.count as usize {
        write!(out, "; ")?;
        match E::at(s, i) {
            None => write!(out, "unreadable")?,
            Some(entry) => entry.show(out)?,
        }
    }
    Ok(())
}

// Writes the zones of a section.
pub(crate) fn zones(out: &mut impl Write, s: &[u8]) -> Result<()> {
    let readable = rules::set_time_zone(s, MOST_ZONES) != Err(Refusal::Unreadable);
    section::<TimeZoneRead>(out, s, read::time_zones(s), readable)
}

// Writes the windows of a section.
pub(crate) fn windows(out: &mut impl Write, s: &[u8]) -> Result<()> {
    let readable = rules::set_dst_offset(s, MOST_WINDOWS) != Err(Refusal::Unreadable);
    section::<DSTOffsetRead>(out, s, read::dst_offsets(s), readable)
}

// Writes how many zones and windows a record has, or that it cannot be read; also where the rules take one that cannot.
pub(crate) fn record(out: &mut impl Write, s: &[u8]) -> Result<()> {
    let found = read::record(s);
    if found.is_none() && rules::stored(s, MOST_ZONES, MOST_WINDOWS).is_ok() {
        write!(out, "the rules disagree: ")?;
    }
    let Some(RecordRead { zones, at, windows }) = found else {
        return write!(out, "unreadable");
    };
    write!(out, "{zones} zones, {windows} windows from byte {at}")
}
