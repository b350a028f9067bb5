// The timer's look, and the steps of the client.
// C calls these through crate `controller_c`: an answer is a number, and a value that may be missing has a mark beside it, 0 where it is not there.
ghost use Rattle.image.specs.Asked.{given};
ghost use Rattle.steps.specs.Steps.{attempt_outcome, change_outcome, look_outcome, outcome_by};
ghost use Rattle.std.specs.Prelude.{◌≡◌};

// A look at a tick. What TimeZoneStatus and DSTStatus carry is 0 where they are not emitted.
pub fn timesync_look(
    image: &mut [u8],
    tick: u64,
    name: &mut [u8],
    offset: &mut i32,
    named: &mut u64,
    name_len: &mut u64,
    dst_active: &mut u64,
    sleep: &mut u64,
    sleep_us: &mut u64,
) -> u64
    ensures { let o = look_outcome image.old tick name.old offset.old named.old name_len.old dst_active.old sleep.old sleep_us.old in
        (result ≡ o.returned)
        × (image.new ≡ o.image)
        × (name.new ≡ o.name)
        × (offset.new ≡ o.offset)
        × (named.new ≡ o.named)
        × (name_len.new ≡ o.name_length)
        × (dst_active.new ≡ o.active)
        × (sleep.new ≡ o.sleep)
        × (sleep_us.new ≡ o.sleep_time) }
{
    steps::timer::look(
        image, tick, name, offset, named, name_len, dst_active, sleep, sleep_us,
    )
}

// An attempt at a tick: whether the exchange was answered, and the moment and the granularity that came, each where its mark is not 0.
pub fn timesync_attempt(
    image: &mut [u8],
    answered: u8,
    has_utc: u8,
    utc_us: u64,
    has_granularity: u8,
    granularity: u8,
    tick: u64,
    wait: &mut u64,
    wait_us: &mut u64,
) -> u64
    ensures { let answer = outcome_by answered (given has_utc utc_us) (given has_granularity granularity) in
        let o = attempt_outcome image.old answer tick wait.old wait_us.old in
        (result ≡ o.returned)
        × (image.new ≡ o.image)
        × (wait.new ≡ o.wait)
        × (wait_us.new ≡ o.wait_time) }
{
    steps::client::attempt(
        image,
        answered,
        has_utc,
        utc_us,
        has_granularity,
        granularity,
        tick,
        wait,
        wait_us,
    )
}

// The trusted time source has changed: the retries start over.
pub fn timesync_source_changed(image: &mut [u8], wait: &mut u64, wait_us: &mut u64) -> u64
    ensures { let o = change_outcome image.old wait.old wait_us.old in
        (result ≡ o.returned)
        × (image.new ≡ o.image)
        × (wait.new ≡ o.wait)
        × (wait_us.new ≡ o.wait_time) }
{
    steps::client::source_changed(image, wait, wait_us)
}
