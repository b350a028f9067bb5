// The two steps of the client.
ghost use Rattle.std.specs.Prelude.{◌≡◌};
ghost use Rattle.model.specs.Codes.{returned};
ghost use Rattle.time_sync_client.specs.Meaning.{outcome_of, next_of, effects_of, step_of};
ghost use Rattle.image.specs.Asked.{given};
ghost use Rattle.steps.specs.Steps.{outcome_by, wait_kind, wait_time, attempt_outcome, change_outcome};

use crate::codes::taken;
use image::asked::given;
use image::codes::{
    EMIT_MISSING_TRUSTED_TIME_SOURCE, EMIT_TIME_FAILURE, REPORT_GRANULARITY, REPORT_TIME_SOURCE,
    REPORT_UTC_TIME, STORE_MOMENT,
};
use image::parts::{client_in, put_client, put_rtc, rtc_in};
use image::place::is_image;
use model::Refusal;
use time_sync_client::{Effects, Reading, Step, Wait};

// The outcome of an exchange: it failed where the first mark is 0, and a moment and a granularity came where theirs are not 0.
fn outcome_by(
    answered: u8,
    has_utc: u8,
    utc_us: u64,
    has_granularity: u8,
    granularity: u8,
) -> Option<Reading>
    ensures { outcome_of result ≡ outcome_by answered (given has_utc utc_us) (given has_granularity granularity) }
{
    let reading = Reading {
        utc_time: given(has_utc, utc_us),
        granularity: given(has_granularity, granularity),
    };
    given(answered, reading)
}

// What comes next by its number, and how long a wait is; 0 where there is none.
fn wait_numbers(next: Wait) -> (u64, u64)
    ensures { (result.0 ≡ wait_kind (next_of next)) × (result.1 ≡ wait_time (next_of next)) }
{
    match next {
        Wait::AttemptNow => (0, 0),
        Wait::For(us) => (1, us),
        Wait::ForSource => (2, 0),
    }
}

// What a step returns: 0 and the codes of what it asks for.
#[tactic(auto, unfolding(model::specs::Codes::returned, model::specs::Bytes::number))]
fn step_number(e: Effects) -> u64
    ensures { result ≡ returned 0 (effects_of e) }
{
    taken(&[
        (e.applied, REPORT_UTC_TIME),
        (e.applied, REPORT_GRANULARITY),
        (e.applied, REPORT_TIME_SOURCE),
        (e.stored.is_some(), STORE_MOMENT),
        (
            e.missing_trusted_time_source,
            EMIT_MISSING_TRUSTED_TIME_SOURCE,
        ),
        (e.time_failure, EMIT_TIME_FAILURE),
    ])
}

// Writes the wait after a step into the numbers, and answers what the step returns.
fn tell(step: &Step, wait: &mut u64, wait_us: &mut u64) -> u64
    ensures { (result ≡ returned 0 (step_of step.now).effects)
        × (wait.new ≡ wait_kind (step_of step.now).next)
        × (wait_us.new ≡ wait_time (step_of step.now).next) }
{
    (*wait, *wait_us) = wait_numbers(step.next);
    step_number(step.effects)
}

// An attempt at a tick: whether the exchange was answered, and the moment and the granularity that came, each where its mark is not 0.
#[tactic(auto, unfolding(crate::specs::Steps::attempt, model::specs::Codes::returned, model::specs::Bytes::number))]
pub fn attempt(
    image: &mut [u8],
    answered: u8,
    has_utc: u8,
    utc_us: u64,
    has_granularity: u8,
    granularity: u8,
    tick: u64,
    wait: &mut u64,
    wait_us: &mut u64,
) -> u64
    ensures { let o = attempt_outcome image.old (outcome_by answered (given has_utc utc_us) (given has_granularity granularity)) tick wait.old wait_us.old in
        (result ≡ o.returned)
        × (image.new ≡ o.image)
        × (wait.new ≡ o.wait)
        × (wait_us.new ≡ o.wait_time) }
{
    if !is_image(image) {
        return u64::from(Refusal::BadLimits);
    }
    let outcome = outcome_by(answered, has_utc, utc_us, has_granularity, granularity);
    let step = client_in(image).attempt(rtc_in(image), outcome, tick);
    put_rtc(image, step.rtc);
    put_client(image, step.client);
    tell(&step, wait, wait_us)
}

// The trusted time source has changed: the retries start over.
#[tactic(auto, unfolding(crate::specs::Steps::source_changed, model::specs::Codes::returned, model::specs::Bytes::number))]
pub fn source_changed(image: &mut [u8], wait: &mut u64, wait_us: &mut u64) -> u64
    ensures { let o = change_outcome image.old wait.old wait_us.old in
        (result ≡ o.returned)
        × (image.new ≡ o.image)
        × (wait.new ≡ o.wait)
        × (wait_us.new ≡ o.wait_time) }
{
    if !is_image(image) {
        return u64::from(Refusal::BadLimits);
    }
    let step = client_in(image).source_changed(rtc_in(image));
    put_client(image, step.client);
    tell(&step, wait, wait_us)
}
