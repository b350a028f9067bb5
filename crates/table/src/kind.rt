// The two kinds of entries, each a trait impl for the bytes of its places: where the places stand in a table, how long an entry is, and
// how one is written.
ghost use Rattle.std.specs.Prelude.{◌≡◌, ℕ, ◌+◌, ◌<◌, ◌≤◌, List, length};
ghost use Rattle.model.specs.Bytes.{zone_bytes, window_bytes};
ghost use Rattle.word.specs.Place.{put};
ghost use Rattle.table.specs.Layout.{mark_at, zone_at, window_at, zone_place, window_place};
ghost use Rattle.table.specs.Held.{head_bytes, zone_length_at, window_length_at};

use crate::layout::{
    END, ENDED, MARK, MOST_NAME, NAME, NAME_LENGTH, WINDOW_SIZE, WINDOWS, ZONE_SIZE, ZONES,
};
use word::or_zero::u8_at;

// The bytes of one place of a table, in which an entry stands.
pub(crate) trait Place {
    ghost place_of: { ℕ → ℕ };

    ghost length_at: { List ℕ → ℕ → ℕ };

    // What the entry in a place is written as.
    ghost written: { Self → List ℕ };

    // Where the place with index i stands.
    fn at(i: usize) -> usize
        requires { i < 256 }
        ensures { result ≡ place_of i };

    // How many bytes an entry of this kind has that stands at `at` as it is written.
    fn length_at(s: &[u8], at: usize) -> usize
        requires { at + 13 ≤ length s.now }
        ensures { result ≡ length_at s.now at };

    // How many bytes the entry in this place is written as.
    fn length(&self) -> usize
        ensures { result ≡ length (written self.now) };

    // Writes the entry in this place at `at`, and answers the place after it.
    fn put(&self, out: &mut [u8], at: usize) -> usize
        requires { at + length (written self.now) ≤ length out.old }
        ensures { (out.new ≡ put out.old at (written self.now)) × (result ≡ at + length (written self.now)) };
}

// Writes offset, start and mark of the entry in a place at `at`, and answers whether the mark is set; a mark above 1 is written as 1. Here
// and below a part whose length the compiler knows is one store by `copy_from_slice`: tried, by `word::put` the record of a full table
// takes 1,714 instructions, so 1,234.
#[tactic(auto, using(crate::proofs::Entry::head_written))]
fn put_head(out: &mut [u8], at: usize, place: &[u8]) -> bool
    requires { (13 ≤ length place.now) × (at + 13 ≤ length out.old) }
    ensures { (result ≡ mark_at place.now 12) × (out.new ≡ put out.old at (head_bytes place.now)) }
{
    let marked = place[MARK] != 0;
    out[at..at + MARK].copy_from_slice(&place[..MARK]);
    out[at + MARK] = u8::from(marked);
    marked
}

impl Place for [u8; ZONE_SIZE] {
    ghost place_of = { zone_place };

    ghost length_at = { zone_length_at };

    ghost written = { λ p. zone_bytes (zone_at p 0) };

    fn at(i: usize) -> usize {
        ZONES + ZONE_SIZE * i
    }

    #[tactic(auto, unfolding(crate::specs::Held::zone_length_at))]
    fn length_at(s: &[u8], at: usize) -> usize {
        if u8_at(s, at + MARK) == 0 {
            return END;
        }
        NAME + u8_at(s, at + NAME_LENGTH) as usize
    }

    #[tactic(auto, using(crate::proofs::Bounds::zone_capped))]
    fn length(&self) -> usize {
        Self::length_at(self, 0).min(NAME + MOST_NAME)
    }

    fn put(&self, out: &mut [u8], at: usize) -> usize {
        if !put_head(out, at, self) {
            return at + END;
        }
        let n = (self[NAME_LENGTH] as usize).min(MOST_NAME);
        out[at + NAME_LENGTH] = n as u8;
        word::put(out, at + NAME, &self[NAME..NAME + n]);
        at + NAME + n
    }
}

impl Place for [u8; WINDOW_SIZE] {
    ghost place_of = { window_place };

    ghost length_at = { window_length_at };

    ghost written = { λ p. window_bytes (window_at p 0) };

    fn at(i: usize) -> usize {
        WINDOWS + WINDOW_SIZE * i
    }

    #[tactic(auto, unfolding(crate::specs::Held::window_length_at))]
    fn length_at(s: &[u8], at: usize) -> usize {
        if u8_at(s, at + MARK) == 0 {
            return END;
        }
        ENDED
    }

    #[tactic(auto, using(crate::proofs::Bounds::window_whole))]
    fn length(&self) -> usize {
        Self::length_at(self, 0)
    }

    fn put(&self, out: &mut [u8], at: usize) -> usize {
        if !put_head(out, at, self) {
            return at + END;
        }
        out[at + END..at + ENDED].copy_from_slice(&self[END..ENDED]);
        at + ENDED
    }
}
