// Sections of entries copied to their places as they are written.
ghost use Rattle.std.specs.Prelude.{◌≡◌, ◌+◌, length};
ghost use Rattle.model.specs.Bytes.{zone_bytes, window_bytes, all_bytes};
ghost use Rattle.word.specs.Place.{byte_at};
ghost use Rattle.table.specs.Layout.{put_entries, with_zones, with_windows};
ghost use Rattle.table.specs.Held.{Held, Whole, parts_from, end_of, zones_behind, windows_behind};

use crate::kind::Place;
use crate::layout::{WINDOW_COUNT, WINDOW_SIZE, ZONE_COUNT, ZONE_SIZE};
use word::or_zero::{put_u8, u8_at};

// Copies the n entries of a kind from `from` on to their places, and answers the place after them. By index: a slice that is shorter than
// a table has some of the places, so they are no array of places.
fn put_all<P: Place>(table: &mut [u8], s: &[u8], from: usize, n: u8) -> usize
    requires { Whole P.length_at s.now from n }
    ensures { (table.new ≡ put_entries P.place_of (λ bs. bs) table.old 0 (parts_from P.length_at s.now from n)) × (result ≡ end_of P.length_at s.now from n) }
{
    let mut at = from;
    for i in 0..n as usize {
        let m = P::length_at(s, at);
        word::put(table, P::at(i), &s[at..at + m]);
        at += m;
    }
    at
}

// Copies the section of zones at `at`: how many there are, and each to its place. Answers the place after them.
#[tactic(auto, using(crate::proofs::Held::zones_copied, crate::proofs::Held::zones_end))]
pub(crate) fn put_zones(table: &mut [u8], s: &[u8], at: usize) -> usize
    requires { Held zone_bytes s.now (at + 1) (byte_at s.now at) (zones_behind s.now at) }
    ensures { (table.new ≡ with_zones table.old (zones_behind s.now at)) × (result ≡ at + 1 + length (all_bytes zone_bytes (zones_behind s.now at))) }
{
    let n = u8_at(s, at);
    put_u8(table, ZONE_COUNT, n);
    put_all::<[u8; ZONE_SIZE]>(table, s, at + 1, n)
}

// Copies the section of windows at `at`.
#[tactic(auto, using(crate::proofs::Held::windows_copied))]
pub(crate) fn put_windows(table: &mut [u8], s: &[u8], at: usize)
    requires { Held window_bytes s.now (at + 1) (byte_at s.now at) (windows_behind s.now at) }
    ensures { table.new ≡ with_windows table.old (windows_behind s.now at) }
{
    let n = u8_at(s, at);
    put_u8(table, WINDOW_COUNT, n);
    put_all::<[u8; WINDOW_SIZE]>(table, s, at + 1, n);
}
