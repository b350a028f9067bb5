// Arguments that are there where their mark is not 0: C has no Option.
ghost use Rattle.std.specs.Prelude.{◌≡◌};
ghost use Rattle.model.specs.Handler.{source_readable};
ghost use Rattle.rtc.specs.Meaning.{option_source};
ghost use Rattle.image.specs.Asked.{given};
ghost use Rattle.commands.specs.Calls.{source_by};

use image::asked::given;
use model::TimeSource;
use rtc::TrustedTimeSource;

// A trusted time source.
pub(crate) fn source(
    mark: u8,
    fab_idx: u8,
    node_id: u64,
    endpoint: u16,
) -> Option<TrustedTimeSource>
    ensures { option_source result ≡ source_by mark fab_idx node_id endpoint }
{
    given(
        mark,
        TrustedTimeSource {
            fab_idx,
            node_id,
            endpoint,
        },
    )
}

// Whether the number of a source names one, or is left out.
pub(crate) fn source_readable(mark: u8, n: u8) -> bool
    ensures { result ≡ source_readable (given mark n) }
{
    given(mark, n).is_none_or(|n| TimeSource::try_from(n).is_ok())
}
