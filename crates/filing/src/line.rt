// Texts that an operator writes: lines, and in a line a word, a separator and a value.
ghost use Rattle.std.specs.Prelude.{◌≡◌, ◌≤◌, length};
ghost use Rattle.packet.specs.Tags.{bytes_at};
ghost use Rattle.filing.specs.Lines.{PlaceFits, up_to, under, lines_of, value_for};

use base::Span;
use check::same;

// Returns where the first `byte` stands in `s`, or how long `s` is if there is none.
pub fn find(s: &[u8], byte: u8) -> usize
    ensures value { result ≡ length (up_to byte s.now) }
    ensures room { result ≤ length s.now }
{
    let mut i = 0;
    while i < s.len() {
        if s[i] == byte {
            return i;
        }
        i += 1;
    }
    i
}

// Tells whether a line has the word `word`, and the separator behind it.
fn is_under(line: &[u8], separator: u8, word: &[u8]) -> bool
    ensures { result ≡ under separator word.now line.now }
{
    let n = find(line, separator);
    if line.len() <= n {
        return false;
    }
    same(&line[0..n], word)
}

// Finds the value behind `word`: that of the first line which has the word.
pub fn value_of(text: &[u8], separator: u8, word: &[u8]) -> Option<Span>
    ensures value { bytes_at text.now result ≡ value_for separator word.now (lines_of text.now) }
    ensures room { PlaceFits (length text.now) result }
{
    let mut at = 0;
    while at < text.len() {
        let n = find(&text[at..], b'\n');
        let end = at + n;
        if is_under(&text[at..end], separator, word) {
            return Some(Span {
                start: at + word.len() + 1,
                end,
            });
        }
        at = end + 1;
    }
    None
}
