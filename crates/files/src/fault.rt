// Telling on standard error what a call of the system failed with, as `perror` of the C library does: what failed, and the system's text.
ghost use Rattle.std.specs.Prelude.{◌≤◌, length};

use base::copy_into;
use std::fmt::Write;
use std::io::Print;
use std::{fmt, io};

// What the library puts behind the system's text of an error: its number.
const NUMBER: [u8; 11] = *b" (os error ";

// A text of at most 256 bytes. What does not fit is left out.
#[derive(Clone, Copy)]
struct Text {
    bytes: [u8; 256],
    len: usize,
    ghost within: { len ≤ 256 },
}

impl fmt::Write for Text {
    fn write_str(&mut self, s: &str) -> fmt::Result {
        let len = self.len;
        let s = s.as_bytes();
        let n = s.len().min(256 - len);
        copy_into(&mut self.bytes, len, &s[0..n]);
        self.len = len + n;
        Ok(())
    }
}

// Returns where the number of the error begins in `s`, or its length if there is none.
fn text_end(s: &[u8]) -> usize
    ensures { result ≤ length s.now }
{
    let mut windows = s.windows(NUMBER.len());
    windows
        .position(|w| w == NUMBER.as_slice())
        .unwrap_or(s.len())
}

// Returns the system's number of the error `e`, or 0 if it is none of the system's.
pub fn number_of(e: &io::Error) -> i32 {
    e.raw_os_error().unwrap_or(0)
}

// Writes a line to standard error, `err`: `what`, a colon and the text of the error `e`.
pub fn fail(err: &impl Print, what: &[u8], e: &io::Error) {
    let mut text = Text {
        bytes: [0u8; 256],
        len: 0,
    };
    let _ = write!(text, "{e}");
    let len = text_end(&text.bytes[0..text.len]);
    let _ = err.write_all(what);
    let _ = err.write_all(b": ");
    let _ = err.write_all(&text.bytes[0..len]);
    let _ = err.write_all(b"\n");
}
