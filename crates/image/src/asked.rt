// Arguments that are there where their mark is not 0: C has no Option, and lends a mark beside the value.
ghost use Rattle.std.specs.Prelude.{◌≡◌};
ghost use Rattle.image.specs.Asked.{given};

// The value that is there where its mark is not 0.
pub fn given<T: Drop>(mark: u8, value: T) -> Option<T>
    ensures { result ≡ given mark value }
{
    (mark != 0).then_some(value)
}
