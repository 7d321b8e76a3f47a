// Prints the log of a session (docs/ARCHIVE.md#the-log) that comes on standard input: a line for each frame, and last how the log ends.
#![tactic(auto)]

use calendar::time::write_time;
use filing::entry::kind_in;
use filing::frame::{Kind, NoFrame, read_frame};
use lines::input::{NoMore, read_behind};
use lines::output::{print, put_hex, write};
use packet::header::be32_at;
use std::io::Read;
use std::num::{wrapping_add_u32, wrapping_add_usize};

// The bytes of a row, and of a frame without payload.
const ROW: usize = 16;

const LEAST: usize = 32;

// Payloads up to this length are printed, and of longer ones the length and the MD5.
const LONGEST: usize = 64;

// Where the program stands in the log.
#[derive(Clone, Copy)]
struct Place {
    // Where the next frame begins in the store, and how many bytes stand there.
    at: usize,
    have: usize,
    // How many bytes of the log stood in front of those of the store.
    passed: usize,
    // The number of the next frame.
    number: u32,
}

// Returns what a frame is called, by its four letters.
fn word_of(letters: u32) -> &'static str {
    match kind_in(letters) {
        Some(Kind::Open) => "open",
        Some(Kind::Recv) => "received",
        Some(Kind::Part) => "received-part",
        Some(Kind::Sent) => "sent",
        Some(Kind::Answ) => "answered",
        Some(Kind::Objt) => "object",
        Some(Kind::Pass) => "password",
        Some(Kind::Nonc) => "nonce",
        Some(Kind::Clos) => "closed",
        Some(Kind::File) => "filing",
        Some(Kind::Fail) => "failed",
        Some(Kind::Done) => "end",
        None => "unknown",
    }
}

// Prints the time of a clock.
fn print_clock(rt: &impl Print, clock: u32) {
    let mut text = [b'-'; 16];
    let _ = write_time(clock, &mut text);
    print(rt, &text);
}

// Prints a payload.
fn print_payload(rt: &impl Print, payload: &[u8]) {
    let mut out = [0u8; 256];
    let n = put_hex(&mut out, 0, payload, LONGEST);
    write(rt, &out, n);
}

// Prints a frame: its number, its clock, what it is, how long its payload is, and the payload. Each piece is written by itself: where one cannot
// be written, the next one is tried all the same.
fn print_frame(rt: &impl Print, number: u32, letters: u32, clock: u32, payload: &[u8]) {
    let _ = rt.print(number);
    print(rt, b" ");
    print_clock(rt, clock);
    print(rt, b" ");
    print(rt, word_of(letters).as_bytes());
    print(rt, b" ");
    let _ = rt.print(payload.len());
    print(rt, b" ");
    print_payload(rt, payload);
    print(rt, b"\n");
}

// Prints how the log ends: how many frames are sound, where they end, and what is wrong there. Each piece is written by itself, too.
fn print_end(rt: &impl Print, place: Place, how: &str) {
    print(rt, b"frames ");
    let _ = rt.print(place.number);
    print(rt, b" bytes ");
    let _ = rt.print(wrapping_add_usize(place.passed, place.at));
    print(rt, b" ");
    print(rt, how.as_bytes());
    print(rt, b"\n");
}

// Shows the frame at `place`, whose payload has `n` bytes, and returns the place behind it.
fn pass(rt: &impl Print, log: &[u8], place: Place, n: usize) -> Option<Place> {
    let at = place.at.min(log.len());
    if log.len() - at < LEAST {
        return None;
    }
    let size = n.min(log.len() - at - LEAST);
    let from = at + ROW;
    print_frame(
        rt,
        place.number,
        be32_at(log, at),
        be32_at(log, at + 12),
        &log[from..from + size],
    );
    Some(Place {
        at: wrapping_add_usize(from + size, (ROW - size % ROW) % ROW + ROW),
        number: wrapping_add_u32(place.number, 1),
        ..place
    })
}

// Reads on, behind what of the store is still needed: from the check before the next frame on. Prints how the log ends if no more came.
fn read_more(
    rt: &impl Print,
    input: &mut impl Read,
    store: &mut [u8],
    place: Place,
) -> Option<Place> {
    let to = place.have.min(store.len());
    let at = place.at.min(to);
    let from = at.saturating_sub(ROW);
    match read_behind(input, store, from, to) {
        Ok(have) => Some(Place {
            at: at - from,
            have,
            passed: wrapping_add_usize(place.passed, from),
            number: place.number,
        }),
        Err(NoMore::Full) => {
            print_end(rt, place, "longer than this program reads");
            None
        }
        Err(NoMore::End) => {
            print_end(rt, place, if at == to { "whole" } else { "breaks off" });
            None
        }
    }
}

// Shows the next frame or reads on, by what stands at `place`, and returns the next place. Prints how the log ends if there is none.
fn step(rt: &impl Print, input: &mut impl Read, store: &mut [u8], place: Place) -> Option<Place> {
    let have = place.have.min(store.len());
    let how = match read_frame(&store[0..have], place.at, place.number) {
        Ok(n) => return pass(rt, &store[0..have], place, n),
        Err(NoFrame::End | NoFrame::Cut) => return read_more(rt, input, store, place),
        Err(NoFrame::Damaged) => "fault 11",
        Err(NoFrame::Misplaced) => "fault 12",
        Err(NoFrame::Malformed) => "fault 13",
    };
    print_end(rt, place, how);
    None
}

// Shows the frames of standard input, which is read into `store`. The steps are counted up to a number that no run uses up, since a proved loop has
// to end and nothing says that the input does.
fn show(rt: &impl Print, input: &mut impl Read, store: &mut [u8]) {
    let mut place = Place {
        at: 0,
        have: 0,
        passed: 0,
        number: 0,
    };
    for _ in 0..u64::MAX {
        match step(rt, input, store, place) {
            Some(next) => place = next,
            None => return,
        }
    }
}

fn main(rt: HostRuntime) {
    let mut store = [0u8; 131072];
    show(&rt, &mut rt.stdin(), &mut store);
}
