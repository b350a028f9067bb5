// A whole history of calls on a new list store in a local table, and what is looked up after it; its contract is demand 3, about the
// answers that it computed itself.
#![tactic(auto)]

mod calls;

ghost use Rattle.std.specs.Prelude.{◌≡◌, ◌≤◌, length};
ghost use Rattle.model.specs.Answers.{number_of};
ghost use Rattle.model.specs.Output.{leaves_copy};
ghost use Rattle.table.specs.Layout.{table_size};
ghost use Rattle.model.specs.Rules.{Rules};
ghost use Rattle.replay.specs.Replays.{Lent, name_told, moments_told, replayed, lent_after};
ghost use Rattle.replay.specs.Claim.{ReplayClaim};
ghost use Rattle.replay.specs.Tables.{answered, by_value};

use model::{Refusal, TAKEN};
use table::layout::SIZE;
use word::WORD;

// What a run answers by value: the moments, the name and the record stand in slices.
#[derive(Clone, Copy)]
struct Outcome {
    steps: usize,
    zone: i32,
    // How long the zone's name is, if it has one.
    name: Option<usize>,
    window: Option<i32>,
    usable: bool,
    next: Option<u64>,
    // How long the record is.
    stored: usize,
    generation: u32,
}

// Every lookup in a table at a moment, the walk from another on, the record and the generation; tested for room before anything is written.
fn answered(
    table: &[u8],
    start: u64,
    at: u64,
    moments: &mut [u8],
    name: &mut [u8],
    out: &mut [u8],
) -> Result<Outcome, Refusal>
    requires { table_size ≤ length table.now }
    ensures { let told = answered table.now start at (length moments.old) (length name.old) (length out.old) in record {
      value : result ≡ by_value told;
      walked : moments.new ≡ leaves_copy told moments_told moments.old;
      named : name.new ≡ leaves_copy told name_told name.old;
      stored : out.new ≡ leaves_copy told (λ p. p.stored) out.old;
    } }
{
    let walk = lookups::transitions::walk(table, start);
    let walked = walk.walked();
    let zone = lookups::zones::active_time_zone(table, at);
    let named = zone.name_in(table);
    let zone_name = named.unwrap_or_default();
    if moments.len() < WORD * walked.len() || name.len() < zone_name.len() {
        return Err(Refusal::NoSpace);
    }
    let stored = table::write::put(table, out).ok_or(Refusal::NoSpace)?;
    word::put_u64s(moments, walked, walked.len());
    word::put(name, 0, zone_name);
    Ok(Outcome {
        steps: walk.steps,
        zone: zone.offset,
        name: named.map(<[u8]>::len),
        window: lookups::windows::active_dst_offset(table, at),
        usable: lookups::windows::dst_usable(table, at),
        next: lookups::transitions::next_transition(table, at),
        stored,
        generation: table::layout::generation(table),
    })
}

// Makes a list store in a local table, runs the calls of a history on it, and looks up in it.
fn replayed(
    zone_limit: usize,
    window_limit: usize,
    history: &[u8],
    start: u64,
    at: u64,
    moments: &mut [u8],
    name: &mut [u8],
    out: &mut [u8],
) -> Result<Outcome, Refusal>
    ensures { let rules : Rules = record { zone_limit = zone_limit; window_limit = window_limit } in
        let told = replayed rules history.now start at (length moments.old) (length name.old) (length out.old) in record {
          value : result ≡ by_value told;
          walked : moments.new ≡ leaves_copy told moments_told moments.old;
          named : name.new ≡ leaves_copy told name_told name.old;
          stored : out.new ≡ leaves_copy told (λ p. p.stored) out.old;
        } }
{
    let mut table = [0u8; SIZE];
    table::new(&mut table, zone_limit, window_limit)?;
    if !history::is_history(history) {
        return Err(Refusal::Unreadable);
    }
    calls::through(&mut table, history);
    answered(&table, start, at, moments, name, out)
}

// Makes a list store, runs the calls of a history on it, looks up at a moment and walks from another on. The numbers that it writes are
// C's: one parameter for each, and a mark beside a value that may be missing, which is 0 then.
pub fn timesync_replay(
    zone_limit: usize,
    window_limit: usize,
    history: &[u8],
    start: u64,
    at: u64,
    moments: &mut [u8],
    steps: &mut u64,
    name: &mut [u8],
    zone: &mut i32,
    named: &mut u64,
    name_used: &mut u64,
    active: &mut u64,
    window: &mut i32,
    usable: &mut u64,
    has_next: &mut u64,
    next: &mut u64,
    out: &mut [u8],
    used: &mut u64,
    generation: &mut u64,
) -> u64
    ensures number { let rules : Rules = record { zone_limit = zone_limit; window_limit = window_limit } in
        result ≡ number_of (replayed rules history.now start at (length moments.old) (length name.old) (length out.old)) }
    ensures outputs { let rules : Rules = record { zone_limit = zone_limit; window_limit = window_limit } in
        let before : Lent = record {
          moments = moments.old;
          steps = steps.old;
          name = name.old;
          zone = zone.old;
          named = named.old;
          name_used = name_used.old;
          active = active.old;
          window = window.old;
          usable = usable.old;
          has_next = has_next.old;
          next = next.old;
          out = out.old;
          used = used.old;
          generation = generation.old;
        } in
        let after : Lent = record {
          moments = moments.new;
          steps = steps.new;
          name = name.new;
          zone = zone.new;
          named = named.new;
          name_used = name_used.new;
          active = active.new;
          window = window.new;
          usable = usable.new;
          has_next = has_next.new;
          next = next.new;
          out = out.new;
          used = used.new;
          generation = generation.new;
        } in
        after ≡ lent_after (replayed rules history.now start at (length moments.old) (length name.old) (length out.old)) before }
    ensures claim { let rules : Rules = record { zone_limit = zone_limit; window_limit = window_limit } in
        let after : Lent = record {
          moments = moments.new;
          steps = steps.new;
          name = name.new;
          zone = zone.new;
          named = named.new;
          name_used = name_used.new;
          active = active.new;
          window = window.new;
          usable = usable.new;
          has_next = has_next.new;
          next = next.new;
          out = out.new;
          used = used.new;
          generation = generation.new;
        } in
        ReplayClaim rules history.now start at result after }
{
    match replayed(
        zone_limit,
        window_limit,
        history,
        start,
        at,
        moments,
        name,
        out,
    ) {
        Err(cause) => u64::from(cause),
        Ok(told) => {
            *steps = told.steps as u64;
            *zone = told.zone;
            *named = told.name.is_some() as u64;
            *name_used = told.name.unwrap_or(0) as u64;
            *active = told.window.is_some() as u64;
            *window = told.window.unwrap_or(0);
            *usable = told.usable as u64;
            *has_next = told.next.is_some() as u64;
            *next = told.next.unwrap_or(0);
            *used = told.stored as u64;
            *generation = told.generation as u64;
            TAKEN
        }
    }
}
