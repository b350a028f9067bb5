// Reads the words of a row: hexadecimal digits and decimal numbers.
ghost use Rattle.std.specs.Prelude.{◌/◌, ◌<◌, ◌≡◌, ◌≤◌, length, min};

// The value of a hexadecimal digit, and 0 for any other byte. Not by `to_digit`, which takes capital letters too.
fn digit(b: u8) -> u8
    ensures { result ≤ 15 }
{
    match b {
        b'0'..=b'9' => b - b'0',
        b'a'..=b'f' => b - b'a' + 10,
        _ => 0,
    }
}

// The bytes that pairs of digits stand for, as many as there is room for; they are stored at the front of `out`.
pub(crate) fn hex<'a>(s: &[u8], out: &'a mut [u8]) -> &'a [u8]
    ensures { length result.now ≡ min (length s.now / 2) (length out.old) }
{
    let (pairs, _) = s.as_chunks::<2>();
    let n = pairs.len().min(out.len());
    for (byte, [high, low]) in out.iter_mut().zip(pairs) {
        *byte = digit(*high) * 16 + digit(*low);
    }
    &out[..n]
}

// A row from word k on, to its end; the first word is 0. Nothing where the row has no such word.
pub(crate) fn from_word(row: &[u8], k: usize) -> &[u8]
    requires { k < 10 }
{
    row.splitn(k + 1, |b| *b == b' ').nth(k).unwrap_or(&[])
}

// A number with one more digit, held at the largest.
fn with_digit(n: u64, b: u8) -> u64 {
    n.saturating_mul(10).saturating_add(u64::from(digit(b)))
}

// Word k of a row as a decimal number; 0 where the row has no such word. A byte that is no digit is read as `digit` reads it.
pub(crate) fn number(row: &[u8], k: usize) -> u64 {
    let word = row.split(|b| *b == b' ').nth(k).unwrap_or(&[]);
    word.iter().fold(0, |n, b| with_digit(n, *b))
}
