// Numbers at a place of a slice where what is missing reads as 0, and the narrow numbers written there.
ghost use Rattle.std.specs.Prelude.{[], ◌∷◌, ◌≡◌};
ghost use Rattle.model.specs.Bytes.{bytes, signed};
ghost use Rattle.word.specs.Place.{fits_at, byte_at, word_at, placed};

use crate::put_bytes;

// The byte at `at`, or 0.
pub fn u8_at(s: &[u8], at: usize) -> u8
    ensures { result ≡ byte_at s.now at }
{
    s.get(at).copied().unwrap_or(0)
}

// The 16-bit number at `at`, or 0.
#[tactic(auto, using(crate::proofs::Parts::word_of_number))]
pub fn u16_at(s: &[u8], at: usize) -> u16
    ensures { result ≡ word_at 2 s.now at }
{
    crate::u16_at(s, at).unwrap_or(0)
}

// The 32-bit number at `at`, or 0.
#[tactic(auto, using(crate::proofs::Parts::word_of_number))]
pub fn u32_at(s: &[u8], at: usize) -> u32
    ensures { result ≡ word_at 4 s.now at }
{
    crate::u32_at(s, at).unwrap_or(0)
}

// The 64-bit number at `at`, or 0.
#[tactic(auto, using(crate::proofs::Parts::word_of_number))]
pub fn u64_at(s: &[u8], at: usize) -> u64
    ensures { result ≡ word_at 8 s.now at }
{
    crate::u64_at(s, at).unwrap_or(0)
}

// The offset at `at`, or 0.
#[tactic(auto, using(crate::proofs::Parts::offset_of_signed))]
pub fn i32_at(s: &[u8], at: usize) -> i32
    ensures { result ≡ signed (word_at 4 s.now at) }
{
    crate::i32_at(s, at).unwrap_or(0)
}

// Writes a byte at `at`, where it fits; answers whether it does.
pub fn put_u8(out: &mut [u8], at: usize, v: u8) -> bool
    ensures { (result ≡ fits_at out.old at 1) × (out.new ≡ placed out.old at (v ∷ [])) }
{
    put_bytes(out, at, &[v])
}

// Writes a 16-bit number at `at`, where it fits; answers whether it does.
pub fn put_u16(out: &mut [u8], at: usize, v: u16) -> bool
    ensures { (result ≡ fits_at out.old at 2) × (out.new ≡ placed out.old at (bytes 2 v)) }
{
    put_bytes(out, at, &v.to_le_bytes())
}
