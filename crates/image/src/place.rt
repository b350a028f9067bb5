// Which bytes are an image, and where its parts stand.
ghost use Rattle.std.specs.Prelude.{◌≡◌};
ghost use Rattle.table.specs.Layout.{mark_at};
ghost use Rattle.image.specs.Layout.{is_image};
ghost use Rattle.image.specs.Parts.{has_lists};

use word::or_zero::{u8_at, u32_at};

// ## Places

// The magic: T, M, S, 1.
pub(crate) const MAGIC_PLACE: usize = 0;

pub(crate) const MAGIC: u32 = 0x3153_4d54;

// The mark of a list store.
pub const STORE: usize = 4;

// The clock, and what stands in it.
pub const CLOCK: usize = 8;

pub const GRANULARITY: usize = CLOCK;

pub const SOURCE: usize = CLOCK + 1;

pub const SET: usize = CLOCK + 2;

pub const TRUSTED: usize = CLOCK + 3;

pub const FABRIC: usize = CLOCK + 4;

pub const ENDPOINT: usize = CLOCK + 6;

pub const UTC: usize = CLOCK + 8;

pub(crate) const PERSISTED: usize = CLOCK + 16;

pub const ANCHOR: usize = CLOCK + 24;

pub const NODE: usize = CLOCK + 32;

pub(crate) const CLOCK_SIZE: usize = 40;

// The client, and what stands in it.
pub const CLIENT: usize = CLOCK + CLOCK_SIZE;

pub(crate) const PERIOD: usize = CLIENT;

pub(crate) const RETRY: usize = CLIENT + 8;

pub(crate) const MISSING_AT: usize = CLIENT + 16;

pub(crate) const FAILURE_AT: usize = CLIENT + 24;

pub(crate) const MISSED: usize = CLIENT + 32;

pub(crate) const FAILED: usize = CLIENT + 33;

pub(crate) const CLIENT_SIZE: usize = 40;

// The timer, and what stands in it.
pub const TIMER: usize = CLIENT + CLIENT_SIZE;

pub(crate) const SEEN: usize = TIMER;

pub(crate) const ACTIVE: usize = TIMER + 1;

pub(crate) const USABLE: usize = TIMER + 2;

pub(crate) const OFFSET: usize = TIMER + 4;

pub(crate) const TIMER_SIZE: usize = 8;

// The table.
pub const TABLE: usize = TIMER + TIMER_SIZE;

// How many bytes an image has.
pub const SIZE: usize = TABLE + table::layout::SIZE;

// ## Read

// Whether the mark at a place is set.
pub fn mark_at(s: &[u8], at: usize) -> bool
    ensures { result ≡ mark_at s.now at }
{
    u8_at(s, at) != 0
}

// Whether the bytes are an image; longer ones are one too.
#[tactic(auto, unfolding(crate::specs::Layout::is_image))]
pub fn is_image(image: &[u8]) -> bool
    ensures { result ≡ is_image image.now }
{
    SIZE <= image.len() && u32_at(image, MAGIC_PLACE) == MAGIC
}

// Whether there is a list store.
pub fn has_lists(image: &[u8]) -> bool
    ensures { result ≡ has_lists image.now }
{
    mark_at(image, STORE)
}
