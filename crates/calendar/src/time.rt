// LegacyTime, which older boxes send, and Time, which newer ones send: each converted to the other.
ghost use Rattle.std.specs.Prelude.{◌≡◌, true, ◌+◌, ◌%◌};
ghost use Rattle.calendar.specs.Time.{is_instant, moment, text_of, all_digits, is_form, number_at, read_instant, instant_of};
ghost use Rattle.calendar.specs.Time.{DigitsAt, legacy_for, legacy_of, writing, write_time, legacy_number, wrote_number};

use crate::date::{Date, date_after_epoch, day_number, is_date};
use base::{Short, copy_into};

// A date and a time of day, by their numbers. There may be no such time.
#[derive(Clone, Copy)]
struct Instant {
    date: Date,
    hour: u8,
    minute: u8,
    second: u8,
}

// Why a text does not convert; `legacy_number` gives the number of each.
#[derive(Clone, Copy, PartialEq, Eq)]
pub enum LegacyError {
    // The text has not the form YYYYMMDDTHHMMSSZ.
    Malformed,
    // There is no such date or no such time of day.
    Nonexistent,
    // The time lies outside the 32 bits.
    Outside,
}

// The length of a text.
const TEXT: usize = 16;

// The seconds of a day.
const DAY: u32 = 86400;

// The first second of 1970 and the first that 32 bits cannot name, counted from the first second of year 0.
const FIRST: u64 = 62167219200;

const END: u64 = 66462186496;

// Returns the number of an answer of `write_time`.
pub fn wrote_number(answer: Result<(), Short>) -> usize
    ensures { result ≡ wrote_number answer }
{
    match answer {
        Ok(()) => 0,
        Err(Short) => 10,
    }
}

// Returns the number of an answer of `read_time`.
// Stays a function, as does `wrote_number`: the numbers are those of docs/DECISIONS.md, part B, and an answer has one too that is no error.
pub fn legacy_number(answer: Result<u32, LegacyError>) -> usize
    ensures { result ≡ legacy_number answer }
{
    match answer {
        Ok(_) => 0,
        Err(LegacyError::Malformed) => 16,
        Err(LegacyError::Nonexistent) => 17,
        Err(LegacyError::Outside) => 18,
    }
}

// Returns the last decimal digit of `n`, as a byte of text.
// Stays beside `write!`: a text has sixteen places, and the contract says the byte at each.
fn digit(n: u16) -> u8
    ensures { result ≡ 0x30 + n % 10 }
{
    b'0' + (n % 10) as u8
}

// Returns the text of an instant.
fn text_of(at: Instant) -> [u8; 16]
    ensures { result ≡ text_of at }
{
    let year = at.date.year;
    let month = u16::from(at.date.month);
    let day = u16::from(at.date.day);
    let hour = u16::from(at.hour);
    let minute = u16::from(at.minute);
    let second = u16::from(at.second);
    [
        digit(year / 1000),
        digit(year / 100),
        digit(year / 10),
        digit(year),
        digit(month / 10),
        digit(month),
        digit(day / 10),
        digit(day),
        b'T',
        digit(hour / 10),
        digit(hour),
        digit(minute / 10),
        digit(minute),
        digit(second / 10),
        digit(second),
        b'Z',
    ]
}

// Returns the instant that lies `seconds` seconds after 1970-01-01 00:00:00.
fn instant_of(seconds: u32) -> Instant
    ensures { result ≡ instant_of seconds }
{
    Instant {
        date: date_after_epoch(seconds / DAY),
        hour: (seconds % DAY / 3600) as u8,
        minute: (seconds % 3600 / 60) as u8,
        second: (seconds % 60) as u8,
    }
}

// Writes the Time of a LegacyTime to the front of `text`.
#[tactic(auto, unfolding(crate::specs::Time::write_time))]
pub fn write_time(seconds: u32, text: &mut [u8]) -> Result<(), Short>
    ensures { writing result text.new ≡ write_time seconds text.old }
{
    if text.len() < TEXT {
        return Err(Short);
    }
    let made = text_of(instant_of(seconds));
    copy_into(text, 0, &made);
    Ok(())
}

// Whether each byte of `s` is a decimal digit.
fn is_digits(s: &[u8]) -> bool
    ensures { result ≡ all_digits s.now }
{
    s.iter().all(|b| b.is_ascii_digit())
}

// Whether `text` has the form YYYYMMDDTHHMMSSZ.
#[tactic(auto, unfolding(crate::specs::Time::is_form))]
fn is_form(text: &[u8]) -> bool
    ensures { result ≡ is_form text.now }
{
    text.len() == TEXT
        && is_digits(&text[0..8])
        && text[8] == b'T'
        && is_digits(&text[9..15])
        && text[15] == b'Z'
}

// Returns the number of the two digits at `at`.
fn number_at(text: &[u8], at: usize) -> u8
    requires { DigitsAt text.now at }
    ensures { result ≡ number_at text.now at 2 }
{
    (text[at] - b'0') * 10 + (text[at + 1] - b'0')
}

// Returns the instant that a text of the form names.
fn instant_in(text: &[u8]) -> Instant
    requires { is_form text.now ≡ true }
    ensures { result ≡ read_instant text.now }
{
    let century = u16::from(number_at(text, 0));
    let year = u16::from(number_at(text, 2));
    Instant {
        date: Date {
            year: century * 100 + year,
            month: number_at(text, 4),
            day: number_at(text, 6),
        },
        hour: number_at(text, 9),
        minute: number_at(text, 11),
        second: number_at(text, 13),
    }
}

// Whether the date and the time of day exist. There is no second 60.
#[tactic(auto, unfolding(crate::specs::Time::is_instant))]
fn is_instant(at: Instant) -> bool
    ensures { result ≡ is_instant at }
{
    is_date(at.date) && at.hour < 24 && at.minute < 60 && at.second < 60
}

// Returns how many seconds lie between the first second of year 0 and an instant. Of a time that does not exist the number says nothing.
#[tactic(auto, unfolding(crate::specs::Time::moment))]
fn seconds_to(at: Instant) -> u64
    ensures { result ≡ moment at }
{
    let days = u64::from(day_number(at.date));
    days * u64::from(DAY)
        + u64::from(at.hour) * 3600
        + u64::from(at.minute) * 60
        + u64::from(at.second)
}

// Returns the LegacyTime of a time that lies `seconds` behind the first second of year 0. That the time does not exist (17) comes before
// that it lies outside the 32 bits (18).
#[tactic(auto, unfolding(crate::specs::Time::legacy_for))]
fn judge(exists: bool, seconds: u64) -> Result<u32, LegacyError>
    ensures { result ≡ legacy_for exists seconds }
{
    if !exists {
        return Err(LegacyError::Nonexistent);
    }
    if seconds < FIRST || END <= seconds {
        return Err(LegacyError::Outside);
    }
    Ok((seconds - FIRST) as u32)
}

// Reads a text as a LegacyTime. A text without the form (16) comes before a time that does not exist (17), and that before a time outside
// the 32 bits (18).
#[tactic(auto, unfolding(crate::specs::Time::legacy_of))]
pub fn read_time(text: &[u8]) -> Result<u32, LegacyError>
    ensures { result ≡ legacy_of text.now }
{
    if !is_form(text) {
        return Err(LegacyError::Malformed);
    }
    let at = instant_in(text);
    judge(is_instant(at), seconds_to(at))
}
