// A section tested as it is read, by the rule of its kind of entry.
ghost use Rattle.std.specs.Prelude.{◌≡◌, ◌↔◌, Bool, ℕ, Option};
ghost use Rattle.record.specs.Fronts as F;
ghost use Rattle.record.specs.Fronts.{section_at};
ghost use Rattle.rules.specs.Entries.{entry_tested, section_tested, verdict_in, moved_to, request_tested, end_tested, end_read};

use model::Refusal;
use record::entry::Entry;
use record::section::{SectionReader, place_after};

// An entry that a rule tests, by its index and the entry before it.
pub(crate) trait Ruled: Entry {
    ghost keeps: { ℕ → Option Self → Self → Bool };

    // Whether the entry keeps the rule.
    fn passes(&self, index: usize, before: Option<Self>) -> bool
        ensures { result ≡ keeps index before self.now };
}

// A section: what is said of its entries, and the place after it.
#[derive(Clone, Copy)]
struct Tested {
    verdict: Result<(), Refusal>,
    next: usize,
}

// What is said of one entry: the limit is tested before the rule.
#[tactic(auto, unfolding(model::specs::Rules::demand))]
fn verdict_on<E: Ruled>(
    entry: E,
    index: usize,
    before: Option<E>,
    limit: usize,
) -> Result<(), Refusal>
    ensures { result ≡ entry_tested E.keeps limit index before entry }
{
    if index == limit {
        return Err(Refusal::ResourceExhausted);
    }
    if !entry.passes(index, before) {
        return Err(Refusal::ConstraintError);
    }
    Ok(())
}

// The section at `at`: each entry is read once, and the first that fails decides. Those after it are read too, since a section is unreadable
// where one of its entries is. It ends where `record::section::section_at` reads it to end.
#[tactic(auto, using(crate::proofs::Walk::walking, crate::proofs::Ends::ending))]
fn section<E: Ruled>(s: &[u8], at: usize, limit: usize) -> Option<Tested>
    ensures tested { result ≡ section_tested E.found_at E.next_of E.keeps limit s.now at }
    ensures read { end_tested result ≡ end_read (section_at E.read_one s.now at) }
{
    let count = *s.get(at)? as usize;
    let mut before = None;
    let mut next = at + 1;
    for index in 0..count {
        let entry = E::read_at(s, next)?;
        next = entry.next();
        let verdict = verdict_on(entry, index, before, limit);
        if verdict.is_err() {
            let next = place_after::<E>(s, next, count - index - 1)?;
            return Some(Tested { verdict, next });
        }
        before = Some(entry);
    }
    Some(Tested {
        verdict: Ok(()),
        next,
    })
}

// Takes the section at the reader's position: what is said of its entries. The reader goes on after it, and stays where nothing is readable,
// as in `SectionReader::take`. In place: by a call, a refused request takes some 20 instructions more.
#[inline(always)]
pub(crate) fn take<E: Ruled>(
    reader: &mut SectionReader<'_>,
    limit: usize,
) -> Option<Result<(), Refusal>>
    ensures found { result ≡ verdict_in (section_tested E.found_at E.next_of E.keeps limit reader.old.src.now reader.old.at) }
    ensures same { reader.new.src ≡ reader.old.src }
    ensures moved { reader.new.at ≡ moved_to reader.old.at (section_tested E.found_at E.next_of E.keeps limit reader.old.src.now reader.old.at) }
    ensures unread { result ≡ None ↔ section_at E.read_one reader.old.src.now reader.old.at ≡ None }
    ensures read { reader.new.at ≡ F.moved_to reader.old.at (section_at E.read_one reader.old.src.now reader.old.at) }
{
    let section = section::<E>(reader.src, reader.at, limit)?;
    reader.at = section.next;
    Some(section.verdict)
}

// A request: one section and nothing else.
#[tactic(auto, using(crate::proofs::Whole::of_request))]
pub(crate) fn request<E: Ruled>(s: &[u8], limit: usize) -> Result<(), Refusal>
    ensures { result ≡ request_tested E.found_at E.next_of E.keeps limit s.now }
{
    let mut reader = SectionReader::new(s);
    match take::<E>(&mut reader, limit) {
        Some(verdict) if reader.ended() => verdict,
        _ => Err(Refusal::Unreadable),
    }
}
