// ASCII text at a place of lent bytes. Every public function is total: what does not fit stores nothing, and the place stays.
#![tactic(auto)]

ghost use Rattle.std.specs.Prelude.{◌≡◌, ◌+◌, ◌≤◌, ◌++◌, length, take};
ghost use Rattle.model.specs.Schedule.{decimal, signed_decimal};
ghost use Rattle.text.specs.Written.{Wrote};

// The most digits of a 64-bit number.
pub const MOST_DIGITS: usize = 20;

// The same, with a sign before them.
pub const MOST_SIGNED: usize = MOST_DIGITS + 1;

// Lent bytes, and the place where the next word goes.
#[derive(Drop)]
pub struct Writer<'a> {
    out: &'a mut [u8],
    at: usize,
}

impl<'a> Writer<'a> {
    // A writer at a place of some bytes.
    pub fn new(out: &'a mut [u8], at: usize) -> Writer<'a>
        ensures same_reference { result.out.ghost_name ≡ out.entry.ghost_name }
        ensures bytes { result.out.now ≡ out.old }
        ensures place { result.at ≡ at }
    {
        Writer { out, at }
    }

    // The place where the next word goes.
    pub fn place(&self) -> usize
        ensures { result ≡ self.now.at }
    {
        self.at
    }

    // The bytes before the place.
    fn written(&self) -> &[u8]
        requires { self.now.at ≤ length self.now.out.now }
        ensures { result.now ≡ take self.now.at self.now.out.now }
    {
        &self.out[..self.at]
    }

    // Writes a word as it is.
    #[tactic(auto, unfolding(crate::specs::Written::after))]
    pub fn word(&mut self, ascii: &[u8])
        ensures { Wrote self.old self.new ascii.now }
    {
        if word::put(self.out, self.at, ascii) {
            self.at += ascii.len();
        }
    }

    // Writes the digits of a number where there is room for the most digits, the front ones first.
    // std's Display writes the same digits, but to a writer that may refuse: here they are proved to the byte, in lent memory.
    fn digits(&mut self, n: u64)
        requires { self.old.at + 20 ≤ length self.old.out.now }
        ensures { Wrote self.old self.new (decimal n) }
    {
        if n < 10 {
            return self.word(&[b'0' + n as u8]);
        }
        self.digits(n / 10);
        self.word(&[b'0' + (n % 10) as u8]);
    }

    // Writes a sign and the digits of a number, as one word.
    fn number(&mut self, sign: &[u8], n: u64)
        requires { length sign.now ≤ 1 }
        ensures { Wrote self.old self.new (sign.now ++ decimal n) }
    {
        let mut memory = [0u8; MOST_SIGNED];
        let mut number = Writer::new(&mut memory, 0);
        number.word(sign);
        number.digits(n);
        self.word(number.written());
    }

    // Writes a number in decimal.
    pub fn decimal(&mut self, n: u64)
        ensures { Wrote self.old self.new (decimal n) }
    {
        self.number(b"", n);
    }

    // Writes a signed number in decimal, with `-` before a negative one.
    pub fn signed(&mut self, z: i32)
        ensures { Wrote self.old self.new (signed_decimal z) }
    {
        let sign: &[u8] = if z < 0 { b"-" } else { b"" };
        self.number(sign, u64::from(z.unsigned_abs()));
    }
}
