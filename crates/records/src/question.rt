// The words of a question: which one is asked, and whether a word has the form of a number or of bytes.
ghost use Rattle.std.specs.Prelude.{◌<◌};

use lines::word::number;

// Stays an enum that `line` matches on: the questions differ in what follows the word.
#[derive(Clone, Copy)]
pub(crate) enum Question {
    Write,
    Read,
    Store,
    Restore,
    Time,
    Legacy,
    Roll,
}

// Returns the question that `word` names, if it names one.
pub(crate) fn question_of(word: &[u8]) -> Option<Question> {
    match word {
        b"write" => Some(Question::Write),
        b"read" => Some(Question::Read),
        b"store" => Some(Question::Store),
        b"restore" => Some(Question::Restore),
        b"time" => Some(Question::Time),
        b"legacy" => Some(Question::Legacy),
        b"roll" => Some(Question::Roll),
        _ => None,
    }
}

// Returns the number that `word` names. A word of more than ten digits names none: every number that is asked about is shorter.
pub(crate) fn number_of(word: &[u8]) -> Option<usize> {
    if (1..=10).contains(&word.len()) && word.iter().all(|c| c.is_ascii_digit()) {
        Some(number(word))
    } else {
        None
    }
}

// Whether `word` is bytes in hexadecimal, with a multiple of `unit` digits, in lower case as in the answers. A dash stands for no bytes.
pub(crate) fn is_bytes(word: &[u8], unit: usize) -> bool
    requires { 0 < unit }
{
    word == b"-".as_slice()
        || !word.is_empty()
            && word.len() % unit == 0
            && word.iter().all(|c| matches!(*c, b'0'..=b'9' | b'a'..=b'f'))
}

// Returns the room that `word` names, if it is at most `largest` and `digits` are bytes in hexadecimal, a multiple of `unit` digits.
pub(crate) fn room_of(word: &[u8], digits: &[u8], unit: usize, largest: usize) -> Option<usize>
    requires { 0 < unit }
{
    let room = number_of(word)?;
    (is_bytes(digits, unit) && room <= largest).then_some(room)
}
