// The record of a table, written straight from its places.
ghost use Rattle.std.specs.Prelude.{◌≡◌, ◌∷◌, ◌+◌, ◌^◌, ◌<◌, ◌≤◌, cond, length, sum_by};
ghost use Rattle.model.specs.Bytes.{all_bytes, zones_bytes, record_bytes};
ghost use Rattle.model.specs.Output.{too_short, copied_over};
ghost use Rattle.model.specs.Store.{record_of};
ghost use Rattle.word.specs.Place.{put};
ghost use Rattle.record.specs.Written as W;
ghost use Rattle.record.specs.RoundTrip.{bytes_of};
ghost use Rattle.table.specs.Layout.{zones_in, lists_in, store_in};

use crate::kind::Place;
use crate::layout::{windows, zones};
use record::{MOST_BYTES, Record};

// How many bytes the section of the entries in these places has.
fn section_length<P: Place>(places: &[P]) -> usize
    requires { sum_by (λ p. length (P.written p)) places.now < 2 ^ 32 }
    ensures { result ≡ sum_by (λ p. length (P.written p)) places.now + 1 }
{
    places.iter().map(|place| place.length()).sum::<usize>() + 1
}

// How many bytes the section of zones has.
pub(crate) fn zones_length(table: &[u8]) -> usize
    ensures { result ≡ length (zones_bytes (zones_in table.now)) }
{
    section_length(zones(table))
}

// How many bytes the record has.
fn record_length(table: &[u8]) -> usize
    ensures { result ≡ length (record_bytes (lists_in table.now)) }
{
    zones_length(table) + section_length(windows(table))
}

// Writes the section of the entries in these places at `at`, and answers the place after it.
fn put_section<P: Place>(out: &mut [u8], at: usize, places: &[P]) -> usize
    requires count { length places.now < 256 }
    requires room { at + length (length places.now ∷ all_bytes P.written places.now) ≤ length out.old }
    ensures { (out.new ≡ put out.old at (length places.now ∷ all_bytes P.written places.now)) × (result ≡ at + length (length places.now ∷ all_bytes P.written places.now)) }
{
    out[at] = places.len() as u8;
    let mut next = at + 1;
    for place in places {
        next = place.put(out, next);
    }
    next
}

// Writes the record at the front of a slice that has room for it, and answers its length.
fn put_record(out: &mut [u8], table: &[u8]) -> usize
    requires { length (record_bytes (lists_in table.now)) ≤ length out.old }
    ensures { (out.new ≡ put out.old 0 (record_bytes (lists_in table.now))) × (result ≡ length (record_bytes (lists_in table.now))) }
{
    let at = put_section(out, 0, zones(table));
    put_section(out, at, windows(table))
}

// The record of a table, and its length; bytes that are no table have the record of empty lists. It is filled where the caller keeps it: a
// copy of it by value would cost 1 KB of stack more.
#[tactic(auto, using(crate::proofs::Bounds::record_most_lem, crate::proofs::Recorded::filled))]
pub fn fill(made: &mut Record, table: &[u8])
    ensures { made.new ≡ W.record_of (lists_in table.now) }
{
    made.bytes = [0; MOST_BYTES];
    made.length = put_record(&mut made.bytes, table);
}

// The same by value.
pub fn record(table: &[u8]) -> Record
    ensures { result ≡ W.record_of (lists_in table.now) }
{
    let mut made = Record::BLANK;
    fill(&mut made, table);
    made
}

// The record of a table to the front of `out` where it has room, and its length; else nothing is written. Bytes that are no table have the
// record of empty lists. What is copied is what `record` gives by value.
#[tactic(auto, using(word::proofs::Writes::put_front), unfolding(model::specs::Store::record_of))]
pub fn put(table: &[u8], out: &mut [u8]) -> Option<usize>
    ensures length { result ≡ cond (too_short (length out.old) (record_of (store_in table.now))) None (Some (length (record_of (store_in table.now)))) }
    ensures copied { out.new ≡ cond (too_short (length out.old) (record_of (store_in table.now))) out.old (copied_over (record_of (store_in table.now)) out.old) }
    ensures recorded { let r = W.record_of (lists_in table.now) in (result ≡ cond (too_short (length out.old) (bytes_of r)) None (Some r.length)) × (out.new ≡ cond (too_short (length out.old) (bytes_of r)) out.old (copied_over (bytes_of r) out.old)) }
{
    if out.len() < record_length(table) {
        return None;
    }
    Some(put_record(out, table))
}
