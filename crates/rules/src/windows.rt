// The rule on a window.
ghost use Rattle.std.specs.Prelude.{◌≡◌};
ghost use Rattle.rules.specs.Numbers.{follows, below_end, window_passes};

use crate::rule::Ruled;
use record::DSTOffsetRead;

// Whether a window may start so after the one before it: that one has an end, and the start is above its start and not below its end.
fn may_follow(before: Option<DSTOffsetRead>, start: u64) -> bool
    ensures { result ≡ follows before start }
{
    before.is_none_or(|window| {
        window
            .valid_until
            .is_some_and(|end| { window.valid_starting < start && end <= start })
    })
}

// Whether a window starts before its own end.
fn below_its_end(start: u64, until: Option<u64>) -> bool
    ensures { result ≡ below_end start until }
{
    until.is_none_or(|end| start < end)
}

impl Ruled for DSTOffsetRead {
    ghost keeps = { λ _ before w. window_passes before w };

    fn passes(&self, index: usize, before: Option<DSTOffsetRead>) -> bool
        ensures { result ≡ window_passes before self.now }
    {
        may_follow(before, self.valid_starting)
            && below_its_end(self.valid_starting, self.valid_until)
    }
}
