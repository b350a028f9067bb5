// Numbers at a place of a slice, little endian and in two's complement. Every public function is total: a place past the end reads as
// missing, and stores nothing.
#![tactic(auto)]

pub mod or_zero;
pub mod text;

ghost use Rattle.std.specs.Prelude.{◌≡◌, ◌&&◌, ◌*◌, ◌≤◌, leb, length};
ghost use Rattle.model.specs.Bytes.{bytes, all_bytes, bits_of};
ghost use Rattle.word.specs.Place.{fits_at, part_at, number_at, signed_at, put, placed, copied, with_numbers};

// How many bytes a 64-bit number has.
pub const WORD: usize = 8;

// Whether n bytes stand at `at`.
pub fn in_bounds(s: &[u8], at: usize, n: usize) -> bool
    ensures { result ≡ fits_at s.now at n }
{
    at <= s.len() && n <= s.len() - at
}

// The N bytes at `at`.
fn array_at<const N: usize>(s: &[u8], at: usize) -> Option<[u8; N]>
    ensures { result ≡ part_at N s.now at }
{
    s.get(at..)?.first_chunk().copied()
}

// Writes bytes at `at`, where they fit; answers whether they do. Beside `put`, for parts whose length the compiler knows: one store each.
#[tactic(auto, unfolding(crate::specs::Place::placed))]
fn put_bytes(out: &mut [u8], at: usize, part: &[u8]) -> bool
    ensures { (result ≡ fits_at out.old at (length part.now)) × (out.new ≡ placed out.old at part.now) }
{
    let fits = in_bounds(out, at, part.len());
    if fits {
        out[at..at + part.len()].copy_from_slice(part);
    }
    fits
}

// Writes words one after another, each by value: from behind its reference (tried) the compiler moves one at a time, and a record takes four
// times the instructions. Here and below the place comes from `enumerate`: zipped with `chunks_exact_mut` or `iter_mut` (tried) the proof
// doesn't close, since std says nothing of what the slice ends as.
fn put_words(out: &mut [u8], words: &[[u8; WORD]])
    requires { length out.old ≡ 8 * length words.now }
    ensures { out.new ≡ all_bytes (λ w. w) words.now }
{
    for (i, &word) in words.iter().enumerate() {
        out[WORD * i..WORD * (i + 1)].copy_from_slice(&word);
    }
}

// Writes bytes one by one.
fn put_singly(out: &mut [u8], part: &[u8])
    requires { length out.old ≡ length part.now }
    ensures { out.new ≡ part.now }
{
    for (i, byte) in part.iter().enumerate() {
        out[i] = *byte;
    }
}

// Writes bytes over others, as many, a word at a time. Not by one `copy_from_slice`: of a length that only the caller knows it asks for
// memmove, and the archive for C asks for memcpy and memset alone; byte by byte alone, a listed entry takes more than the Rust's.
#[tactic(auto, using(crate::proofs::Parts::words_and_rest))]
fn put_over(out: &mut [u8], part: &[u8])
    requires { length out.old ≡ length part.now }
    ensures { out.new ≡ part.now }
{
    let (words, rest) = part.as_chunks::<WORD>();
    let (front, back) = out.split_at_mut(part.len() - rest.len());
    put_words(front, words);
    put_singly(back, rest);
}

// Writes bytes at `at`, where they fit; answers whether they do.
#[tactic(auto, unfolding(crate::specs::Place::placed))]
pub fn put(out: &mut [u8], at: usize, part: &[u8]) -> bool
    ensures { (result ≡ fits_at out.old at (length part.now)) × (out.new ≡ placed out.old at part.now) }
{
    let fits = in_bounds(out, at, part.len());
    if fits {
        put_over(&mut out[at..at + part.len()], part);
    }
    fits
}

// Copies n bytes of s from `from` on to `at`, where both slices have so many, else nothing; answers whether they do. By `in_bounds`: where the
// part comes out of `get` (tried) the compiler forgets what it knows of its length.
#[tactic(auto, using(crate::proofs::Places::copied_placed, crate::proofs::Places::copied_few))]
pub fn copy(out: &mut [u8], at: usize, s: &[u8], from: usize, n: usize) -> bool
    ensures there { result ≡ fits_at s.now from n && fits_at out.old at n }
    ensures copied { out.new ≡ copied out.old at s.now from n }
{
    if !in_bounds(s, from, n) {
        return false;
    }
    put(out, at, &s[from..from + n])
}

// The 64-bit number at `at`.
pub fn u64_at(s: &[u8], at: usize) -> Option<u64>
    ensures { result ≡ number_at 8 s.now at }
{
    Some(u64::from_le_bytes(array_at(s, at)?))
}

// The 16-bit number at `at`.
fn u16_at(s: &[u8], at: usize) -> Option<u16>
    ensures { result ≡ number_at 2 s.now at }
{
    Some(u16::from_le_bytes(array_at(s, at)?))
}

// The 32-bit number at `at`.
pub fn u32_at(s: &[u8], at: usize) -> Option<u32>
    ensures { result ≡ number_at 4 s.now at }
{
    Some(u32::from_le_bytes(array_at(s, at)?))
}

// The offset at `at`.
#[tactic(auto, using(crate::proofs::Endian::to_signed))]
pub fn i32_at(s: &[u8], at: usize) -> Option<i32>
    ensures { result ≡ signed_at s.now at }
{
    Some(u32_at(s, at)?.cast_signed())
}

// Writes a 64-bit number at `at`, where it fits; answers whether it does.
pub fn put_u64(out: &mut [u8], at: usize, v: u64) -> bool
    ensures { (result ≡ fits_at out.old at 8) × (out.new ≡ placed out.old at (bytes 8 v)) }
{
    put_bytes(out, at, &v.to_le_bytes())
}

// Writes a 32-bit number at `at`, where it fits; answers whether it does.
pub fn put_u32(out: &mut [u8], at: usize, v: u32) -> bool
    ensures { (result ≡ fits_at out.old at 4) × (out.new ≡ placed out.old at (bytes 4 v)) }
{
    put_bytes(out, at, &v.to_le_bytes())
}

// Writes an offset at `at`, where it fits; answers whether it does.
#[tactic(auto, using(crate::proofs::Endian::to_bits))]
pub fn put_i32(out: &mut [u8], at: usize, z: i32) -> bool
    ensures { (result ≡ fits_at out.old at 4) × (out.new ≡ placed out.old at (bytes 4 (bits_of z))) }
{
    put_u32(out, at, z.cast_unsigned())
}

// Writes numbers one after another, 8 bytes each.
fn put_numbers(out: &mut [u8], numbers: &[u64])
    requires { 8 * length numbers.now ≤ length out.old }
    ensures { out.new ≡ put out.old 0 (all_bytes (λ m. bytes 8 m) numbers.now) }
{
    for (i, v) in numbers.iter().enumerate() {
        put_u64(out, WORD * i, *v);
    }
}

// Writes the first n numbers at the front, 8 bytes each, where there are so many and all have room, else nothing; answers whether they do.
#[tactic(auto, using(crate::proofs::Writes::numbers_there, crate::proofs::Writes::numbers_few, crate::proofs::Writes::numbers_short))]
pub fn put_u64s(out: &mut [u8], numbers: &[u64], n: usize) -> bool
    ensures fits { result ≡ leb n (length numbers.now) && fits_at out.old 0 (8 * n) }
    ensures written { out.new ≡ with_numbers out.old numbers.now n }
{
    let Some(asked) = numbers.get(..n) else {
        return false;
    };
    let fits = in_bounds(out, 0, WORD * asked.len());
    if fits {
        put_numbers(out, asked);
    }
    fits
}
