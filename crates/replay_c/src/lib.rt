// The entry point for C of a whole history on a local table; include/timesync_replay.h says how to call it. It hands over to crate `replay`.
// C calls it: the answer is a number, and a value that may be missing has a mark beside it, 0 where it is not there.
#![tactic(auto)]

ghost use Rattle.std.specs.Prelude.{◌≡◌, length};
ghost use Rattle.model.specs.Answers.{number_of};
ghost use Rattle.model.specs.Rules.{Rules};
ghost use Rattle.replay.specs.Replays.{Lent, replayed, lent_after};
ghost use Rattle.replay.specs.Claim.{ReplayClaim};

// Makes a list store, runs the calls of a history on it, looks up at a moment and walks from another on.
#[unsafe(no_mangle)]
pub extern "C" fn timesync_replay(
    zone_limit: usize,
    window_limit: usize,
    history: &[u8],
    start: u64,
    at: u64,
    moments: &mut [u8],
    steps: &mut u64,
    name: &mut [u8],
    zone: &mut i32,
    named: &mut u64,
    name_used: &mut u64,
    active: &mut u64,
    window: &mut i32,
    usable: &mut u64,
    has_next: &mut u64,
    next: &mut u64,
    out: &mut [u8],
    used: &mut u64,
    generation: &mut u64,
) -> u64
    ensures number { let rules : Rules = record { zone_limit = zone_limit; window_limit = window_limit } in
        result ≡ number_of (replayed rules history.now start at (length moments.old) (length name.old) (length out.old)) }
    ensures outputs { let rules : Rules = record { zone_limit = zone_limit; window_limit = window_limit } in
        let before : Lent = record {
          moments = moments.old;
          steps = steps.old;
          name = name.old;
          zone = zone.old;
          named = named.old;
          name_used = name_used.old;
          active = active.old;
          window = window.old;
          usable = usable.old;
          has_next = has_next.old;
          next = next.old;
          out = out.old;
          used = used.old;
          generation = generation.old;
        } in
        let after : Lent = record {
          moments = moments.new;
          steps = steps.new;
          name = name.new;
          zone = zone.new;
          named = named.new;
          name_used = name_used.new;
          active = active.new;
          window = window.new;
          usable = usable.new;
          has_next = has_next.new;
          next = next.new;
          out = out.new;
          used = used.new;
          generation = generation.new;
        } in
        after ≡ lent_after (replayed rules history.now start at (length moments.old) (length name.old) (length out.old)) before }
    ensures claim { let rules : Rules = record { zone_limit = zone_limit; window_limit = window_limit } in
        let after : Lent = record {
          moments = moments.new;
          steps = steps.new;
          name = name.new;
          zone = zone.new;
          named = named.new;
          name_used = name_used.new;
          active = active.new;
          window = window.new;
          usable = usable.new;
          has_next = has_next.new;
          next = next.new;
          out = out.new;
          used = used.new;
          generation = generation.new;
        } in
        ReplayClaim rules history.now start at result after }
{
    replay::timesync_replay(
        zone_limit,
        window_limit,
        history,
        start,
        at,
        moments,
        steps,
        name,
        zone,
        named,
        name_used,
        active,
        window,
        usable,
        has_next,
        next,
        out,
        used,
        generation,
    )
}
