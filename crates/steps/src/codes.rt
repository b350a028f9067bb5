// What a step returns: the number of its answer in the lowest byte, then a code for each effect, the first lowest.
ghost use Rattle.std.specs.Prelude.{◌≡◌};
ghost use Rattle.steps.specs.Effects.{byte_before, codes_due};

use model::TAKEN;

// What a step that was taken returns: a code for each effect that is due, a byte each above that of the answer.
pub(crate) fn taken(effects: &[(bool, u64)]) -> u64
    ensures { result ≡ byte_before 0 (codes_due effects.now) }
{
    let codes = effects.iter().rfold(0, |rest, &(due, code)| {
        if due { (rest << u8::BITS) | code } else { rest }
    });
    (codes << u8::BITS) | TAKEN
}
