// Where the program stands in the log, of which a store holds some bytes, and the frame that stands there.
ghost use Rattle.std.specs.Prelude.{◌≡◌, drop};
ghost use Rattle.audit.specs.Place.{four_at, payload_at};

use digest::md5::{Octets16, octets16_at};
use files::path::front;
use lines::input::{NoMore, read_behind};
use packet::header::be32_at;
use std::io::Read;
use std::num::{wrapping_add_u32, wrapping_add_usize};

// How many bytes the store holds: the longest frame of a receiver, and more.
pub(crate) const STORE: usize = 131072;

// The bytes of a row.
const ROW: usize = 16;

// How the reading of a log ends.
#[derive(Clone, Copy, PartialEq, Eq)]
pub(crate) enum End {
    // The log is whole; it breaks off; it has a frame that is longer than the store; it is not there.
    Whole,
    Cut,
    Long,
    NoLog,
    // The session's folder is not there.
    NoFolder,
    // A frame is wrong: its check, its number, its filling.
    Damaged,
    Misplaced,
    Malformed,
}

// Where the program stands in the log.
#[derive(Clone, Copy)]
pub(crate) struct Place {
    // Where the next frame begins in the store, and how many bytes stand there.
    pub at: usize,
    pub have: usize,
    // How many bytes of the log stood in front of those of the store.
    pub passed: usize,
    // The number of the next frame.
    pub number: u32,
    // How the reading ended, if it did.
    pub end: Option<End>,
}

// A frame as it stands in the log, except for its payload.
#[derive(Clone, Copy)]
pub(crate) struct Here {
    pub number: u32,
    // The four letters as one number.
    pub letters: u32,
    pub clock: u32,
    // How many bytes the log has up to the frame's end.
    pub bytes: usize,
    pub check: Octets16,
}

// Returns the place before the first frame.
pub(crate) fn at_start() -> Place {
    Place {
        at: 0,
        have: 0,
        passed: 0,
        number: 0,
        end: None,
    }
}

// Returns the place at which the reading ends.
pub(crate) fn over(place: Place, end: End) -> Place {
    Place {
        end: Some(end),
        ..place
    }
}

// Returns where a frame ends that begins at `at` and whose payload has `n` bytes.
fn frame_end(at: usize, n: usize) -> usize {
    let to = wrapping_add_usize(wrapping_add_usize(at, ROW), n);
    wrapping_add_usize(to, (ROW - n % ROW) % ROW + ROW)
}

// Returns the place behind a frame whose payload has `n` bytes.
pub(crate) fn behind(place: Place, n: usize) -> Place {
    Place {
        at: frame_end(place.at, n),
        number: wrapping_add_u32(place.number, 1),
        ..place
    }
}

// Returns the number of four bytes at `at`; 0 if they are not there.
pub(crate) fn number_at(log: &[u8], at: usize) -> u32
    ensures { result ≡ four_at log.now at }
{
    if log.len() < at {
        return 0;
    }
    if log.len() - at < 4 {
        return 0;
    }
    be32_at(log, at)
}

// Returns the sixteen bytes before `end`; zeros if they are not there.
fn check_before(log: &[u8], end: usize) -> Octets16 {
    let to = end.min(log.len());
    if to < ROW {
        return Octets16 {
            first: 0,
            second: 0,
        };
    }
    octets16_at(log, to - ROW)
}

// Returns the bytes of `s` from `from` on.
pub(crate) fn from_place(s: &[u8], from: usize) -> &[u8]
    ensures { result.now ≡ drop from s.now }
{
    if from <= s.len() {
        return &s[from..];
    }
    &s[0..0]
}

// Returns the payload of `n` bytes of the frame at `at`, as far as it is there.
pub(crate) fn payload_at(log: &[u8], at: usize, n: usize) -> &[u8]
    ensures { result.now ≡ payload_at log.now at n }
{
    front(from_place(log, wrapping_add_usize(at, ROW)), n)
}

// Returns the frame at `place`, whose payload has `n` bytes.
pub(crate) fn frame_here(log: &[u8], place: Place, n: usize) -> Here {
    let at = place.at;
    let end = frame_end(at, n);
    Here {
        number: place.number,
        letters: number_at(log, at),
        clock: number_at(log, wrapping_add_usize(at, 12)),
        bytes: wrapping_add_usize(place.passed, end),
        check: check_before(log, end),
    }
}

// Reads on in the log's file, behind what of the store is still needed: from the check before the next frame on.
pub(crate) fn read_more(file: &mut impl Read, store: &mut [u8], place: Place) -> Place {
    let to = place.have.min(store.len());
    let at = place.at.min(to);
    let from = at.saturating_sub(ROW);
    match read_behind(file, store, from, to) {
        Ok(have) => Place {
            at: at - from,
            have,
            passed: wrapping_add_usize(place.passed, from),
            ..place
        },
        Err(NoMore::Full) => over(place, End::Long),
        Err(NoMore::End) => over(place, if at == to { End::Whole } else { End::Cut }),
    }
}
