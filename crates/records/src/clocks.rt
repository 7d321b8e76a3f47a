// The questions on clocks: `time ROOM SECONDS`, answered `NUMBER TARGET`, where ROOM is the target's length in bytes, and the target is
// filled with ee first and shown whole; `legacy TEXT`, where TEXT is bytes in hexadecimal, answered `NUMBER SECONDS`; `roll YEAR MONTH
// DAY`, answered `NUMBER YEAR MONTH DAY`.
ghost use Rattle.std.specs.Prelude.{◌<◌, ◌^◌};

use crate::answer::{bad_question, show_numbers, show_target};
use crate::question::{is_bytes, number_of};
use calendar::date::{Date, roll_copy, roll_number};
use calendar::time::{legacy_number, read_time, write_time, wrote_number};
use lines::word::{after, find, unhex};

// The largest target that is asked about, in bytes: 1 MiB.
const LARGEST: usize = 1048576;

// Writes the time into the first `room` places of a store of `ROOM`, and shows the answer's number and these places.
fn show_time<const ROOM: usize>(rt: &impl Print, seconds: u32, room: usize)
    requires { ROOM < 2 ^ 32 }
{
    let mut store = [0xEEu8; ROOM];
    let size = room.min(ROOM);
    let answer = write_time(seconds, &mut store[..size]);
    show_target(rt, &[wrote_number(answer)], &store[..size]);
}

// Returns the room and the seconds of `ROOM SECONDS`, if both are numbers and not too large.
fn room_and_seconds(s: &[u8]) -> Option<(usize, u32)> {
    let gap = find(s, 0, b' ');
    let room = number_of(&s[..gap])?;
    let seconds = u32::try_from(number_of(&s[after(s, gap)..])?).ok()?;
    (room <= LARGEST).then_some((room, seconds))
}

// Answers `ROOM SECONDS`. A small target goes through a store that is made quickly.
pub(crate) fn time(rt: &impl Print, s: &[u8]) {
    match room_and_seconds(s) {
        None => bad_question(rt),
        Some((room, seconds)) if room <= 512 => show_time::<512>(rt, seconds, room),
        Some((room, seconds)) => show_time::<1048576>(rt, seconds, room),
    }
}

// Converts the text of `digits`, and shows the answer. No line has digits for more bytes than the store.
fn show_legacy(rt: &impl Print, digits: &[u8]) {
    let mut octets = [0u8; 131072];
    let n = unhex(digits, &mut octets);
    let answer = read_time(&octets[..n]);
    show_numbers(rt, &[legacy_number(answer), answer.unwrap_or(0) as usize]);
}

// Answers `TEXT`.
pub(crate) fn legacy(rt: &impl Print, digits: &[u8]) {
    if is_bytes(digits, 2) {
        show_legacy(rt, digits);
    } else {
        bad_question(rt);
    }
}

// Returns the date of `YEAR MONTH DAY`, or nothing if a word is no number or a number is too large for its field.
fn date_of(s: &[u8]) -> Option<Date> {
    let first = find(s, 0, b' ');
    let month = after(s, first);
    let second = find(s, month, b' ');
    let day = after(s, second);
    Some(Date {
        year: u16::try_from(number_of(&s[..first])?).ok()?,
        month: u8::try_from(number_of(&s[month..second])?).ok()?,
        day: u8::try_from(number_of(&s[day..])?).ok()?,
    })
}

// Answers `YEAR MONTH DAY`.
pub(crate) fn roll(rt: &impl Print, s: &[u8]) {
    let Some(date) = date_of(s) else {
        bad_question(rt);
        return;
    };
    let rolled = roll_copy(date);
    let after = rolled.date;
    show_numbers(
        rt,
        &[
            roll_number(rolled.answer),
            usize::from(after.year),
            usize::from(after.month),
            usize::from(after.day),
        ],
    );
}
