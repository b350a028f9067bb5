// The calls of a history, one after the other on a table.
ghost use Rattle.std.specs.Prelude.{◌≡◌};
ghost use Rattle.history.specs.Shown.{shown};
ghost use Rattle.replay.specs.Tables.{table_next, Runs};

use history::{Call, Calls};
use record::MOST_BYTES;

// One call on a table.
#[tactic(auto, unfolding(crate::specs::Tables::table_next))]
fn apply(table: &mut [u8], call: Call<'_>)
    ensures { table.new ≡ table_next table.old (shown call.entry) }
{
    match call {
        Call::SetTimeZone(request) => {
            let _ = table::set_time_zone(table, request, MOST_BYTES);
        }
        Call::SetDSTOffset(request) => {
            let _ = table::set_dst_offset(table, request, MOST_BYTES);
        }
        Call::Load(Some(stored)) => {
            let _ = table::load(table, stored);
        }
        Call::Load(None) => {}
        Call::FactoryReset => table::factory_reset(table),
    }
}

// Every call of a history on a table.
pub(crate) fn through(table: &mut [u8], history: &[u8])
    ensures { Runs table.old history.now table.new }
{
    for call in Calls::new(history) {
        apply(table, call);
    }
}
