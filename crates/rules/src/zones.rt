// The rule on a zone.
ghost use Rattle.std.specs.Prelude.{◌≡◌};
ghost use Rattle.model.specs.Rules.{offset_in_range};
ghost use Rattle.rules.specs.Numbers.{zero_at_first, above, length_fits, zone_passes};

use crate::rule::Ruled;
use record::entry::MOST_NAME;
use record::{NamePlace, TimeZoneRead};

// The outermost offsets, in seconds: 12 hours west and 14 hours east.
const WESTMOST: i32 = -43200;

const EASTMOST: i32 = 50400;

// Whether a zone starts at 0 exactly where it is the first.
fn zero_at_first(index: usize, start: u64) -> bool
    ensures { result ≡ zero_at_first index start }
{
    (index == 0) == (start == 0)
}

// Whether a start is above the one before it, if there is one.
fn above_the_one_before(before: Option<TimeZoneRead>, start: u64) -> bool
    ensures { result ≡ above before start }
{
    before.is_none_or(|zone| zone.valid_at < start)
}

// Whether an offset is one that a zone may have.
fn offset_in_range(offset: i32) -> bool
    ensures { result ≡ offset_in_range offset }
{
    (WESTMOST..=EASTMOST).contains(&offset)
}

// Whether a name, if there is one, is not too long.
fn name_fits(name: Option<NamePlace>) -> bool
    ensures { result ≡ length_fits name }
{
    name.is_none_or(|place| place.len <= MOST_NAME)
}

impl Ruled for TimeZoneRead {
    ghost keeps = { zone_passes };

    fn passes(&self, index: usize, before: Option<TimeZoneRead>) -> bool
        ensures { result ≡ zone_passes index before self.now }
    {
        zero_at_first(index, self.valid_at)
            && above_the_one_before(before, self.valid_at)
            && offset_in_range(self.offset)
            && name_fits(self.name)
    }
}
