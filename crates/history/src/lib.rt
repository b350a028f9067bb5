// A history of calls on a store of time_zone lists, as bytes: the calls one after the other.
#![tactic(auto)]

ghost use Rattle.std.specs.Prelude.{◌≡◌, ◌==◌, length, is_some, option_map};
ghost use Rattle.history.specs.Calls.{read_sized, read_call, read_calls};
ghost use Rattle.history.specs.Shown.{shown, left, GivesCall, calls_at_most};

// A call with its argument, in the bytes that were read.
#[derive(Clone, Copy)]
pub enum Call<'a> {
    SetTimeZone(&'a [u8]),
    SetDSTOffset(&'a [u8]),
    // A stored record, or that there is none.
    Load(Option<&'a [u8]>),
    FactoryReset,
}

// A length in 4 bytes and so many bytes, and what follows them.
#[tactic(auto, unfolding(crate::specs::Calls::read_sized, model::specs::Bytes::take_bytes))]
fn sized(s: &[u8]) -> Option<(&[u8], &[u8])>
    ensures { option_map (λ p. (p.0.now, p.1.now)) result ≡ read_sized s.now }
{
    let (size, rest) = s.split_first_chunk()?;
    let len = u32::from_le_bytes(*size) as usize;
    rest.split_at_checked(len)
}

// The call that the bytes begin with, by its kind, and what follows it.
#[tactic(auto, unfolding(crate::specs::Calls::read_call, crate::specs::Calls::read_argument, crate::specs::Calls::call_with))]
fn first(s: &[u8]) -> Option<(Call<'_>, &[u8])>
    ensures { option_map (λ p. (shown p.0, p.1.now)) result ≡ read_call s.now }
{
    let (kind, rest) = s.split_first()?;
    match kind {
        0 => sized(rest).map(|(request, rest)| (Call::SetTimeZone(request), rest)),
        1 => sized(rest).map(|(request, rest)| (Call::SetDSTOffset(request), rest)),
        2 => sized(rest).map(|(stored, rest)| (Call::Load(Some(stored)), rest)),
        3 => Some((Call::Load(None), rest)),
        4 => Some((Call::FactoryReset, rest)),
        _ => None,
    }
}

// The calls that bytes read as, one after the other, up to where none stands.
#[derive(Drop)]
pub struct Calls<'a> {
    rest: &'a [u8],
}

impl<'a> Calls<'a> {
    pub fn new(s: &'a [u8]) -> Calls<'a>
        ensures { left result ≡ s.now }
    {
        Calls { rest: s }
    }

    // Whether nothing is left over.
    pub fn ended(&self) -> bool
        ensures { result ≡ (length (left self.now) == 0) }
    {
        self.rest.is_empty()
    }
}

impl<'a> Iterator for Calls<'a> {
    type Item = Call<'a>;

    ghost next_gives = { GivesCall };

    ghost remaining = { calls_at_most };

    #[tactic(auto, using(crate::proofs::Reading::shorter))]
    fn next(&mut self) -> Option<Call<'a>> {
        let (call, rest) = first(self.rest)?;
        self.rest = rest;
        Some(call)
    }
}

// Whether s is calls one after the other, with nothing left over. Not by a `for` over `&mut calls`: the proof then lost what is left after it.
#[tactic(auto, using(crate::proofs::Reading::history_on, crate::proofs::Reading::history_stops))]
pub fn is_history(s: &[u8]) -> bool
    ensures { result ≡ is_some (read_calls s.now) }
{
    let mut calls = Calls::new(s);
    while calls.next().is_some() {}
    calls.ended()
}
