// Reads the parts of a script from its front, one after another; a number has its lowest byte first.
ghost use Rattle.std.specs.Prelude.{◌≡◌, ◌<◌, ◌≤◌, ◌+◌, length, IfSome};

// What is left of a script.
#[derive(Clone, Copy)]
pub(crate) struct Reader<'a> {
    rest: &'a [u8],
}

impl<'a> Reader<'a> {
    pub(crate) fn new(script: &'a [u8]) -> Reader<'a> {
        Reader { rest: script }
    }

    pub(crate) fn is_empty(&self) -> bool {
        self.rest.is_empty()
    }

    // The next N bytes; where fewer are left, nothing is left after it.
    fn take<const N: usize>(&mut self) -> Option<[u8; N]>
        ensures taken { IfSome result (λ part. length self.new.rest.now + N ≡ length self.old.rest.now) }
        ensures shorter { length self.new.rest.now ≤ length self.old.rest.now }
    {
        let left = self.rest;
        self.rest = &[];
        let (part, rest) = left.split_first_chunk::<N>()?;
        self.rest = rest;
        Some(*part)
    }

    // Numbers, by their width: std has a `from_le_bytes` of each.
    pub(crate) fn u8(&mut self) -> Option<u8>
        ensures taken { IfSome result (λ n. length self.new.rest.now + 1 ≡ length self.old.rest.now) }
        ensures shorter { length self.new.rest.now ≤ length self.old.rest.now }
    {
        self.take().map(u8::from_le_bytes)
    }

    pub(crate) fn u16(&mut self) -> Option<u16>
        ensures { IfSome result (λ n. length self.new.rest.now + 2 ≡ length self.old.rest.now) }
    {
        self.take().map(u16::from_le_bytes)
    }

    pub(crate) fn u32(&mut self) -> Option<u32>
        ensures { IfSome result (λ n. length self.new.rest.now + 4 ≡ length self.old.rest.now) }
    {
        self.take().map(u32::from_le_bytes)
    }

    pub(crate) fn u64(&mut self) -> Option<u64>
        ensures taken { IfSome result (λ n. length self.new.rest.now + 8 ≡ length self.old.rest.now) }
        ensures shorter { length self.new.rest.now ≤ length self.old.rest.now }
    {
        self.take().map(u64::from_le_bytes)
    }

    // The next bytes, with their length before them.
    pub(crate) fn bytes(&mut self) -> Option<&'a [u8]>
        ensures { IfSome result (λ part. length self.new.rest.now < length self.old.rest.now) }
    {
        let length = self.u32()? as usize;
        let (part, rest) = self.rest.split_at_checked(length)?;
        self.rest = rest;
        Some(part)
    }
}
