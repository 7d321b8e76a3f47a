// How the answers show a value, and how they are written.
use digest::md5;
use digest::md5::Octets16;
use lines::output;
use packet::tlv::Wrote;
use std::io::Write;
use std::{fmt, io, str};

// Standard output, to which each piece of an answer is written as it comes. What the system does not take is left out, and the next piece is
// tried all the same.
#[derive(Drop)]
pub(crate) struct Pieces<'a, P> {
    pub to: &'a P,
}

impl<P: Print> Write for Pieces<'_, P> {
    fn write(&mut self, bytes: &[u8]) -> io::Result<usize> {
        output::print(self.to, bytes);
        Ok(bytes.len())
    }

    fn flush(&mut self) -> io::Result<()> {
        Ok(())
    }
}

// The most bytes that are shown.
const LONGEST: usize = 512;

// A byte in hexadecimal, written as one piece.
#[derive(Clone, Copy)]
pub(crate) struct Byte(pub u8);

impl fmt::Display for Byte {
    fn fmt<W: fmt::Write>(&self, f: &mut fmt::Formatter<W>) -> fmt::Result {
        let two = output::pair(self.0);
        f.write_str(str::from_utf8(&two).unwrap_or(""))
    }
}

// At most `LONGEST` bytes in hexadecimal, written as one piece.
#[derive(Clone, Copy)]
struct Digits<'a>(&'a [u8]);

impl fmt::Display for Digits<'_> {
    fn fmt<W: fmt::Write>(&self, f: &mut fmt::Formatter<W>) -> fmt::Result {
        let mut store = [0u8; 2 * LONGEST];
        let n = output::digits(self.0, &mut store);
        f.write_str(str::from_utf8(&store[..n]).unwrap_or(""))
    }
}

// Sixteen bytes in hexadecimal.
#[derive(Clone, Copy)]
pub(crate) struct Sixteen(pub Octets16);

impl fmt::Display for Sixteen {
    fn fmt<W: fmt::Write>(&self, f: &mut fmt::Formatter<W>) -> fmt::Result {
        let bytes = md5::octets(self.0);
        write!(f, "{}", Digits(&bytes))
    }
}

// Bytes in hexadecimal, or a dash if there are none; of more than `LONGEST`, how many there are and their MD5.
#[derive(Clone, Copy)]
pub(crate) struct Hex<'a>(pub &'a [u8]);

impl fmt::Display for Hex<'_> {
    fn fmt<W: fmt::Write>(&self, f: &mut fmt::Formatter<W>) -> fmt::Result {
        if self.0.is_empty() {
            f.write_str("-")
        } else if LONGEST < self.0.len() {
            let sum = md5::digest(self.0);
            write!(f, "#{}:{}", self.0.len(), Digits(&sum))
        } else {
            write!(f, "{}", Digits(self.0))
        }
    }
}

// Returns the word for whether the Final bit is set.
pub(crate) fn final_word(is_final: bool) -> &'static str {
    if is_final { "final" } else { "more" }
}

// Writes what became of a packet or a tag list: its bytes, or which length is refused.
pub(crate) fn put_done(
    out: &mut impl Write,
    done: Wrote,
    store: &[u8],
    refusal: &str,
    size: usize,
) -> io::Result<()> {
    match done {
        Wrote::Written(n) => write!(out, "{}", Hex(store.get(..n).unwrap_or(b""))),
        Wrote::TooLong | Wrote::BadValue => write!(out, "{refusal}{size}"),
        Wrote::Short => write!(out, "short"),
    }
}
