// The bytes of the lists: sections read at a place of a slice, and the buffer of a written record.
#![tactic(auto)]

pub mod entry;
pub mod read;
pub mod section;

ghost use Rattle.std.specs.Prelude.{◌≡◌};
ghost use Rattle.record.specs.RoundTrip.{bytes_of};

use entry::{ENDED, MOST_NAME, NAME};

// The most zones and the most windows that a record has.
pub const MOST_ZONES: usize = 8;

pub const MOST_WINDOWS: usize = 16;

// How many bytes the largest record has: two counts, each zone with its longest name and each window with an end.
pub const MOST_BYTES: usize = 1 + MOST_ZONES * (NAME + MOST_NAME) + 1 + MOST_WINDOWS * ENDED;

// Where a name stands in the bytes that were read.
#[derive(Clone, Copy)]
pub struct NamePlace {
    pub at: usize,
    pub len: usize,
}

// A zone that was read, and the place after it.
#[derive(Clone, Copy)]
pub struct TimeZoneRead {
    pub offset: i32,
    pub valid_at: u64,
    pub name: Option<NamePlace>,
    pub next: usize,
}

// A window that was read, and the place after it.
#[derive(Clone, Copy)]
pub struct DSTOffsetRead {
    pub offset: i32,
    pub valid_starting: u64,
    pub valid_until: Option<u64>,
    pub next: usize,
}

// How many entries a section has, and the place after it.
#[derive(Clone, Copy)]
pub struct SectionRead {
    pub count: u8,
    pub next: usize,
}

// How many zones a record has, the place of its second section, and how many windows.
#[derive(Clone, Copy)]
pub struct RecordRead {
    pub zones: u8,
    pub at: usize,
    pub windows: u8,
}

// A record: its bytes, zeros after them, and how many they are; a fixed buffer, since there is no heap.
#[derive(Clone, Copy)]
pub struct Record {
    pub bytes: [u8; MOST_BYTES],
    pub length: usize,
}

impl Record {
    // A buffer that no record was written to.
    pub const BLANK: Record = Record {
        bytes: [0; MOST_BYTES],
        length: 0,
    };

    // The record's bytes. The fields are public, so a length above the buffer's is cut to it.
    pub fn as_bytes(&self) -> &[u8]
        ensures { result.now ≡ bytes_of self.now }
    {
        self.bytes.get(..self.length).unwrap_or(&self.bytes)
    }
}
