// Well-formed UTF-8, by the table of the Unicode Standard. Not by std's `from_utf8`: its contract says `IsUtf8`, which is defined by the
// encodings of scalar values and not by the table.
ghost use Rattle.std.specs.Prelude.{◌≡◌, ◌∷◌, map};
ghost use Rattle.model.specs.Bytes.{well_formed};
ghost use Rattle.word.specs.Place.{text_at};
ghost use Rattle.word.specs.Ranges.{range_of, AllFresh, Behind, BehindFirst};

use std::ops::RangeInclusive;

// What is left of s behind bytes in these ranges, one after another, where it begins with such.
fn after<'a>(s: &'a [u8], ranges: &[RangeInclusive<u8>]) -> Option<&'a [u8]>
    requires { AllFresh ranges.now }
    ensures { Behind s.now (map range_of ranges.now) result }
{
    let mut left = s;
    for range in ranges {
        let (byte, rest) = left.split_first()?;
        if !range.contains(byte) {
            return None;
        }
        left = rest;
    }
    Some(left)
}

// What is left behind a character with this first byte, where the rest of it follows: a row of the table to an arm.
fn after_first(first: u8, s: &[u8]) -> Option<&[u8]>
    ensures { BehindFirst first s.now result }
{
    match first {
        0x00..=0x7F => Some(s),
        0xC2..=0xDF => after(s, &[0x80..=0xBF]),
        0xE0 => after(s, &[0xA0..=0xBF, 0x80..=0xBF]),
        0xE1..=0xEC => after(s, &[0x80..=0xBF, 0x80..=0xBF]),
        0xED => after(s, &[0x80..=0x9F, 0x80..=0xBF]),
        0xEE..=0xEF => after(s, &[0x80..=0xBF, 0x80..=0xBF]),
        0xF0 => after(s, &[0x90..=0xBF, 0x80..=0xBF, 0x80..=0xBF]),
        0xF1..=0xF3 => after(s, &[0x80..=0xBF, 0x80..=0xBF, 0x80..=0xBF]),
        0xF4 => after(s, &[0x80..=0x8F, 0x80..=0xBF, 0x80..=0xBF]),
        _ => None,
    }
}

// Whether s is well-formed UTF-8, character by character. Few names come here, so no reader of names carries it in its own code.
#[inline(never)]
#[tactic(auto, using(crate::proofs::Rows::none_left))]
fn characters(s: &[u8]) -> bool
    ensures { result ≡ well_formed s.now }
{
    let mut left = s;
    while let [first, rest @ ..] = left {
        let Some(next) = after_first(*first, rest) else {
            return false;
        };
        left = next;
    }
    true
}

// Whether s is well-formed UTF-8; most names are plain. By `common_steps` too, so that a body that tests a part of s is judged by the part.
#[inline(always)]
#[tactic(auto, using(crate::proofs::Rows::ascii_text, std::proofs::lemmas::Grind::common_steps))]
pub fn utf8(s: &[u8]) -> bool
    ensures { result ≡ well_formed s.now }
{
    s.is_ascii() || characters(s)
}

// Whether n bytes stand at `at` and are well-formed UTF-8. Within a section's loop: as a call it made a refused SetTimeZone too slow.
#[inline(always)]
#[tactic(auto, unfolding(crate::specs::Place::text_at))]
pub fn utf8_at(s: &[u8], at: usize, n: usize) -> bool
    ensures { result ≡ text_at s.now at n }
{
    crate::in_bounds(s, at, n) && utf8(&s[at..at + n])
}
