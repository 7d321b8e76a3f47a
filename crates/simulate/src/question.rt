// The questions of planners: which one is asked, with its 32-bit numbers, and Single Response Mode (SRM) on or off.
use lines::word::{number, piece_at, word_of};

#[derive(Clone, Copy)]
pub enum Question {
    Get {
        n: u32,
        m: u32,
        srm: bool,
    },
    Range {
        n0: u32,
        n1: u32,
        m0: u32,
        m1: u32,
        srm: bool,
    },
    Table {
        n: u32,
        srm: bool,
    },
}

impl Question {
    // Returns the question that a line asks, or none if it is no question or has not its form.
    pub(crate) fn parse(line: &[u8]) -> Option<Question> {
        match word_of(line, 0) {
            b"get" if is_last(line, 3) => Some(Question::Get {
                n: number_at(line, 1)?,
                m: number_at(line, 2)?,
                srm: mode_at(line, 3)?,
            }),
            b"range" if is_last(line, 5) => Some(Question::Range {
                n0: number_at(line, 1)?,
                n1: number_at(line, 2)?,
                m0: number_at(line, 3)?,
                m1: number_at(line, 4)?,
                srm: mode_at(line, 5)?,
            }),
            b"table" if is_last(line, 2) => Some(Question::Table {
                n: number_at(line, 1)?,
                srm: mode_at(line, 2)?,
            }),
            _ => None,
        }
    }
}

// Whether the word with the number `k` is the last one of `line`: the line ends with it.
fn is_last(line: &[u8], k: usize) -> bool {
    piece_at(line, k, b' ').end == line.len()
}

// Returns whether SRM is on, by the word with the number `k`.
fn mode_at(line: &[u8], k: usize) -> Option<bool> {
    match word_of(line, k) {
        b"on" => Some(true),
        b"off" => Some(false),
        _ => None,
    }
}

// Returns the number that the word with the number `k` is, unless that has another sign than digits, more than ten of them, or none, or the
// number more than 32 bits.
fn number_at(line: &[u8], k: usize) -> Option<u32> {
    let word = word_of(line, k);
    if word.is_empty() || 10 < word.len() || !word.iter().all(u8::is_ascii_digit) {
        return None;
    }
    u32::try_from(number(word)).ok()
}
