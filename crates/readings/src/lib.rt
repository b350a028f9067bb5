// What is read of the device that an image stands for. A reading answers 0, or the number of a refusal and then what the caller lent
// stays as it was; a value that may be missing has a mark beside it, and is 0 where it is missing: C calls these functions, and has
// neither Result nor Option. Lists are read in the image's table.
#![tactic(auto)]

pub mod clock;
pub mod entries;
pub mod store;
pub mod transitions;

ghost use Rattle.std.specs.Prelude.{◌≡◌, true, false, MatchResult, unwrap_or};
ghost use Rattle.model.specs.Answers.{answers, number_of};
ghost use Rattle.model.specs.Answers as A;
ghost use Rattle.model.specs.declared.Refusal.TheVariants.{BadLimits};
ghost use Rattle.model.specs.Output.{leaves, mark_of};
ghost use Rattle.image.specs.Layout.{is_image};
ghost use Rattle.readings.specs.There.{table_read, told};

use image::place::{SIZE, TABLE, has_lists, is_image};
use model::{Refusal, TAKEN};

// The bytes, where they are an image.
fn held(image: &[u8]) -> Result<&[u8], Refusal>
    ensures { MatchResult result (λ s. (is_image image.now ≡ true) × (s.now ≡ image.now)) (λ cause. (is_image image.now ≡ false) × (cause ≡ BadLimits)) }
{
    if is_image(image) {
        Ok(image)
    } else {
        Err(Refusal::BadLimits)
    }
}

// The table of an image: a buffer that is not an image is refused first, then an image without a list store.
#[tactic(auto, unfolding(crate::specs::There::table_read, image::specs::Layout::is_image))]
fn lists(image: &[u8]) -> Result<&[u8], Refusal>
    ensures { MatchResult result (λ t. table_read image.now ≡ answers t.now) (λ cause. table_read image.now ≡ A.refused cause) }
{
    let image = held(image)?;
    if !has_lists(image) {
        return Err(Refusal::AttributeNotFound);
    }
    Ok(&image[TABLE..SIZE])
}

// Writes the number that was read; else answers the number of the refusal.
fn tell(read: Result<u64, Refusal>, value: &mut u64) -> u64
    ensures { (result ≡ number_of (told read)) × (value.new ≡ leaves (told read) (λ n. n) value.old) }
{
    match read {
        Ok(n) => {
            *value = n;
            TAKEN
        }
        Err(cause) => u64::from(cause),
    }
}

// Writes the value that was read, `none` (the 0 of its type) where it is missing, and the mark beside it; else answers the number of the refusal.
fn tell_option<T: Copy>(
    read: Result<Option<T>, Refusal>,
    none: T,
    there: &mut u64,
    value: &mut T,
) -> u64
    ensures { (result ≡ number_of (told read))
        × (there.new ≡ leaves (told read) mark_of there.old)
        × (value.new ≡ leaves (told read) (λ o. unwrap_or o none) value.old) }
{
    match read {
        Ok(found) => {
            *there = found.is_some() as u64;
            *value = found.unwrap_or(none);
            TAKEN
        }
        Err(cause) => u64::from(cause),
    }
}
