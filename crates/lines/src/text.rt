// A text that is collected in a store of its own and written at once, as a line of a log. What does not fit is left out.
ghost use Rattle.std.specs.Prelude.{◌≡◌, take, IsOk};
ghost use Rattle.lines.specs.Word.{filled};
ghost use Rattle.lines.specs.Output.{put_bytes, decimal_of, flag_text, put_digits, put_digest, put_hex, left_after};
ghost use Rattle.lines.specs.Text.{shown, put_shown};

use crate::output;
use std::fmt;

// The first `length` bytes of a store of `N`.
#[derive(Clone, Copy)]
pub struct Text<const N: usize> {
    pub bytes: [u8; N],
    pub length: usize,
}

// The byte in front of U+0080 to U+009F, and of U+00A0 to U+00BF, in UTF-8.
const CONTROLS: u8 = 0xC2;

// Returns the sign by which a text shows the byte `b`, which stands behind `before`. A peer names its files, and no control character of theirs
// goes to a terminal.
#[tactic(auto, unfolding(crate::specs::Text::shown))]
fn shown(before: u8, b: u8) -> u8
    ensures { result ≡ shown before b }
{
    if b < 32 || b == 127 || before == CONTROLS && b < 160 {
        b'?'
    } else {
        b
    }
}

impl<const N: usize> Text<N> {
    // Returns an empty text.
    pub fn new() -> Text<N>
        ensures { result.length ≡ 0 }
    {
        Text {
            bytes: [0u8; N],
            length: 0,
        }
    }

    // Puts the bytes `s` behind the text.
    pub fn put(&mut self, s: &[u8])
        ensures { filled self.new.bytes self.new.length
            ≡ put_bytes self.old.bytes self.old.length s.now }
    {
        let n = self.length;
        self.length = output::put(&mut self.bytes, n, s);
    }

    // Puts the bytes `s` behind the text, which came from elsewhere: a question mark for each control character.
    #[tactic(auto, using(crate::proofs::Shown::shown_on, crate::proofs::Shown::shown_all))]
    pub fn put_shown(&mut self, s: &[u8])
        ensures { filled self.new.bytes self.new.length
            ≡ put_shown self.old.bytes self.old.length 0 s.now }
    {
        let mut before = 0;
        for &b in s {
            self.put(&[shown(before, b)]);
            before = b;
        }
    }

    // Puts the number `x` in decimal digits behind the text.
    pub fn put_number(&mut self, x: usize)
        ensures { filled self.new.bytes self.new.length
            ≡ put_bytes self.old.bytes self.old.length (decimal_of x) }
    {
        self.length = output::put_number(&mut self.bytes, self.length, x);
    }

    // Puts 1 if `b` is true, and 0 otherwise, behind the text.
    pub fn put_flag(&mut self, b: bool)
        ensures { filled self.new.bytes self.new.length
            ≡ put_bytes self.old.bytes self.old.length (flag_text b) }
    {
        self.length = output::put_flag(&mut self.bytes, self.length, b);
    }

    // Puts the bytes `s` in hexadecimal behind the text, both digits of a byte or neither.
    pub fn put_digits(&mut self, s: &[u8])
        ensures { filled self.new.bytes self.new.length
            ≡ put_digits self.old.bytes self.old.length s.now }
    {
        self.length = output::put_digits(&mut self.bytes, self.length, s);
    }

    // Puts how many bytes `s` has, and their MD5, behind the text.
    pub fn put_digest(&mut self, s: &[u8])
        ensures { filled self.new.bytes self.new.length
            ≡ put_digest self.old.bytes self.old.length s.now }
    {
        self.length = output::put_digest(&mut self.bytes, self.length, s);
    }

    // Puts the bytes `s` in hexadecimal behind the text, or a dash if there are none. If there are more than `longest`, puts how many there
    // are, and their MD5.
    pub fn put_hex(&mut self, s: &[u8], longest: usize)
        ensures { filled self.new.bytes self.new.length
            ≡ put_hex self.old.bytes self.old.length s.now longest }
    {
        self.length = output::put_hex(&mut self.bytes, self.length, s, longest);
    }

    // Returns the text.
    pub fn as_slice(&self) -> &[u8]
        ensures { result.now ≡ take self.now.length self.now.bytes }
    {
        self.bytes.get(..self.length).unwrap_or(&self.bytes)
    }

    // Writes the text to `to`.
    pub fn print(&self, to: &impl Print) {
        output::write(to, &self.bytes, self.length);
    }

    // Writes the text to `to` and empties it, if it takes up half of its store.
    pub fn flush(&mut self, to: &impl Print)
        ensures bytes { self.new.bytes ≡ self.old.bytes }
        ensures left { self.new.length ≡ left_after self.old.bytes self.old.length }
    {
        self.length = output::flush(to, &self.bytes, self.length);
    }
}

impl<const N: usize> fmt::Write for Text<N> {
    ghost write_str_gives = { λ t bytes u. filled u.bytes u.length ≡ put_bytes t.bytes t.length bytes };

    fn write_str(&mut self, s: &str) -> fmt::Result
        ensures ok { IsOk result → filled self.new.bytes self.new.length ≡ put_bytes self.old.bytes self.old.length s.now }
    {
        self.put(s.as_bytes());
        Ok(())
    }
}
