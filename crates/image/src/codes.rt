// The codes of effects in what calls on an image return, a byte each: an attribute to report, an event to emit, what to wake, and what to
// store or to remove. They stay numbers: an enum of them would be made a number wherever it is used, and only C would read it.

pub const REPORT_UTC_TIME: u64 = 0x10;

pub const REPORT_GRANULARITY: u64 = 0x11;

pub const REPORT_TIME_SOURCE: u64 = 0x12;

pub const REPORT_TRUSTED_TIME_SOURCE: u64 = 0x13;

pub const REPORT_TIME_ZONE: u64 = 0x15;

pub const REPORT_DST_OFFSET: u64 = 0x16;

pub const EMIT_DST_TABLE_EMPTY: u64 = 0x20;

pub const EMIT_DST_STATUS: u64 = 0x21;

pub const EMIT_TIME_ZONE_STATUS: u64 = 0x22;

pub const EMIT_TIME_FAILURE: u64 = 0x23;

pub const EMIT_MISSING_TRUSTED_TIME_SOURCE: u64 = 0x24;

pub const WAKE_TIMER: u64 = 0x30;

pub const WAKE_CLIENT: u64 = 0x31;

pub const STORE_RECORD: u64 = 0x40;

pub const REMOVE_RECORD: u64 = 0x41;

pub const STORE_MOMENT: u64 = 0x42;

pub const REMOVE_MOMENT: u64 = 0x43;

pub const STORE_SOURCE: u64 = 0x44;

pub const REMOVE_SOURCE: u64 = 0x45;
