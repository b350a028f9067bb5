// The lines of the schedule, one for each walked moment.
ghost use Rattle.std.specs.Prelude.{◌+◌, ◌*◌, ◌≤◌, length};
ghost use Rattle.model.specs.Bytes.{all_bytes};
ghost use Rattle.model.specs.Schedule.{offset_or_dash, yes_or_no, line};
ghost use Rattle.text.specs.Written.{Wrote};
ghost use Rattle.table.specs.Layout.{lists_in};

use lookups::windows::{active_dst_offset, dst_usable};
use lookups::zones::zone_offset;
use text::{MOST_DIGITS, MOST_SIGNED, Writer};

// Whether a window is usable.
const YES: &[u8] = b"yes";

const NO: &[u8] = b"no";

// The longest line: a moment, two offsets and `yes`, with a space or a line feed after each.
pub(crate) const MOST_LINE: usize = (MOST_DIGITS + 1) + 2 * (MOST_SIGNED + 1) + (YES.len() + 1);

// Writes an offset, and `-` where there is none.
fn put_offset(out: &mut Writer, offset: Option<i32>)
    ensures { Wrote out.old out.new (offset_or_dash offset) }
{
    match offset {
        None => out.word(b"-"),
        Some(seconds) => out.signed(seconds),
    }
}

// Writes `yes` or `no`.
fn put_yes_or_no(out: &mut Writer, yes: bool)
    ensures { Wrote out.old out.new (yes_or_no yes) }
{
    out.word(if yes { YES } else { NO });
}

// Writes what a reader sees from a moment on: the zone's offset, the active window's and whether a window is usable.
fn put_line(out: &mut Writer, table: &[u8], moment: u64)
    requires { out.old.at + 69 ≤ length out.old.out.now }
    ensures { Wrote out.old out.new (line (lists_in table.now) moment) }
{
    out.decimal(moment);
    out.word(b" ");
    out.signed(zone_offset(table, moment));
    out.word(b" ");
    put_offset(out, active_dst_offset(table, moment));
    out.word(b" ");
    put_yes_or_no(out, dst_usable(table, moment));
    out.word(b"\n");
}

// Writes a line for each moment.
pub(crate) fn put_lines(out: &mut Writer, table: &[u8], moments: &[u64])
    requires { out.old.at + 69 * length moments.now ≤ length out.old.out.now }
    ensures { Wrote out.old out.new (all_bytes (line (lists_in table.now)) moments.now) }
{
    for &moment in moments {
        put_line(out, table, moment);
    }
}
