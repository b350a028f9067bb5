// Sections of entries, and a reader of one after another.
ghost use Rattle.std.specs.Prelude.{◌≡◌, ◌≤◌, length, nat_eq};
ghost use Rattle.record.specs.Fronts.{place_after, place_left, section_at, section_entry, count_of, moved_to};

use crate::SectionRead;
use crate::entry::Entry;

// The place after the n entries from `at` on.
#[tactic(auto, using(crate::proofs::Sections::reading, crate::proofs::Indexed::placing), unfolding(crate::specs::Fronts::entries_at))]
pub fn place_after<E: Entry>(s: &[u8], at: usize, n: usize) -> Option<usize>
    ensures found { result ≡ place_after E.found_at E.next_of s.now at n }
    ensures read { at ≤ length s.now → result ≡ place_left E.read_one s.now at n }
{
    let mut next = at;
    for _ in 0..n {
        next = E::read_at(s, next)?.next();
    }
    Some(next)
}

// The section at `at`.
#[tactic(auto, using(crate::proofs::Sections::of_section))]
pub fn section_at<E: Entry>(s: &[u8], at: usize) -> Option<SectionRead>
    ensures { result ≡ section_at E.read_one s.now at }
{
    let count = *s.get(at)?;
    let next = place_after::<E>(s, at + 1, count as usize)?;
    Some(SectionRead { count, next })
}

// Entry i of the section at the front.
#[tactic(auto, using(crate::proofs::Indexed::count_is), unfolding(crate::specs::Fronts::section_entry))]
pub fn nth<E: Entry>(s: &[u8], i: usize) -> Option<E>
    ensures { result ≡ section_entry E.found_at E.next_of s.now i }
{
    let count = *s.first()?;
    if count as usize <= i {
        return None;
    }
    E::read_at(s, place_after::<E>(s, 1, i)?)
}

// The bytes lent to a reader, and the place of the next section.
#[derive(Clone, Copy)]
pub struct SectionReader<'a> {
    pub src: &'a [u8],
    pub at: usize,
}

impl<'a> SectionReader<'a> {
    // A reader that stands at the first byte.
    pub fn new(src: &'a [u8]) -> SectionReader<'a>
        ensures { (result.src ≡ src.entry) × (result.at ≡ 0) }
    {
        SectionReader { src, at: 0 }
    }

    // Takes the section at the reader's position: how many entries it has. The reader goes on after it, and stays where nothing is readable.
    pub fn take<E: Entry>(&mut self) -> Option<u8>
        ensures found { result ≡ count_of (section_at E.read_one self.old.src.now self.old.at) }
        ensures same { self.new.src ≡ self.old.src }
        ensures moved { self.new.at ≡ moved_to self.old.at (section_at E.read_one self.old.src.now self.old.at) }
    {
        let section = section_at::<E>(self.src, self.at)?;
        self.at = section.next;
        Some(section.count)
    }

    // Whether nothing is left over.
    pub fn ended(&self) -> bool
        ensures { result ≡ nat_eq self.now.at (length self.now.src.now) }
    {
        self.at == self.src.len()
    }
}
