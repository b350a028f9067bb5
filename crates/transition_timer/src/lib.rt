// The transition timer, a look at a time: what was last seen goes in and comes out.
#![tactic(auto)]

pub mod due;
pub mod looks;

use lookups::ZoneShown;

// What a look sees: the zone's offset, whether a window is active, and whether one is usable.
#[derive(Clone, Copy, Default)]
pub struct Seen {
    pub offset: i32,
    pub active: bool,
    pub usable: bool,
}

// How long the timer sleeps: it never looks, until it is woken, or so many microseconds or until it is woken.
#[derive(Clone, Copy)]
pub enum Sleep {
    Never,
    UntilWoken,
    AtMost(u64),
}

// What was seen from now on, each event that is due with what it carries, a name by its place in the table, and the sleep.
#[derive(Clone, Copy)]
pub struct Look {
    pub seen: Option<Seen>,
    pub zone_status: Option<ZoneShown>,
    pub dst_status: Option<bool>,
    pub dst_table_empty: bool,
    pub sleep: Sleep,
}
