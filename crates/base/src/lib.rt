// What every layer shares: reading bytes as numbers, copying bytes into a lent store, and the error that the store is too short.
#![tactic(auto)]

ghost use Rattle.std.specs.Prelude.{◌≡◌, ◌+◌, ◌-◌, ◌≤◌, ◌<◌, length, take, drop};
ghost use Rattle.std.proofs.Math.Seq.{paste};
ghost use Rattle.base.specs.Bytes.{be16};

// The error of a writer: the lent store is shorter than what was to be written, and nothing of it changed.
#[derive(Clone, Copy, PartialEq, Eq)]
pub struct Short;

// Returns the byte `b` as a `usize`.
// Stays beside `usize::from`, as do the two below: its contract bounds the number, which callers cite.
pub fn wide(b: u8) -> usize
    ensures { (result ≡ b) × (result < 256) }
{
    usize::from(b)
}

// Returns the byte `b` as a `u32`.
pub fn wide32(b: u8) -> u32
    ensures { (result ≡ b) × (result < 256) }
{
    u32::from(b)
}

// Returns the byte `b` as a `u64`.
pub fn wide64(b: u8) -> u64
    ensures { (result ≡ b) × (result < 256) }
{
    u64::from(b)
}

// Reads the 16-bit number at `at`, its high-order byte first: OBEX writes all numbers in network byte order.
pub fn be16_at(s: &[u8], at: usize) -> usize
    requires { at + 2 ≤ length s.now }
    ensures value { result ≡ be16 s.now at }
    ensures small { result < 65536 }
{
    usize::from(u16::from_be_bytes([s[at], s[at + 1]]))
}

// A part of a list of bytes: those from `start` up to `end`.
#[derive(Clone, Copy, PartialEq, Eq)]
pub struct Span {
    pub start: usize,
    pub end: usize,
}

impl Span {
    // Returns how many bytes the part has.
    pub fn size(self) -> usize
        requires { self.start ≤ self.end }
        ensures { result ≡ self.end - self.start }
    {
        self.end - self.start
    }

    // Returns the part of `s`.
    #[inline]
    pub fn of(self, s: &[u8]) -> &[u8]
        requires ordered { self.start ≤ self.end }
        requires within { self.end ≤ length s.now }
        ensures { result.now ≡ take (self.end - self.start) (drop self.start s.now) }
    {
        &s[self.start..self.end]
    }
}

// Copies all of `src` into `dst`, from `at` on.
pub fn copy_into(dst: &mut [u8], at: usize, src: &[u8])
    requires { at + length src.now ≤ length dst.old }
    ensures { dst.new ≡ paste dst.old at src.now (length src.now) }
{
    // Stays a loop over an index: `copy_from_slice` calls memmove, and the archives for C promise to need no more than memcpy.
    for i in 0..src.len() {
        dst[at + i] = src[i];
    }
}
