// The lines that the program prints, in the words of tools/run/audit.py. Those on records are collected in a store, since the line on the log stands
// before them.
use crate::compare::What;
use crate::entry::{Audit, KIND, LIMIT, NO_END, NO_OPEN};
use crate::path::{FOLDER, base_of};
use crate::place::{End, Place};
use crate::verdict::{Counts, Word};
use crate::waiting::{NO_CODE, Waiting};
use digest::md5::octets;
use files::path::front;
use filing::names::record_name;
use lines::arguments::argument;
use lines::output::{flush, print, put, put_byte, put_hex, put_number};
use std::env::Env;
use std::num::wrapping_add_usize;
use table::targets::{Target, is_named};

// How many bytes of lines on records are collected. A session with more prints the first of them before the line on the log.
pub(crate) const OUT: usize = 1048576;

// The number of a session that ended because the kept headers of a Put are over 65,535 bytes: which records follow is not known.
const HEADERS_TOO_LARGE: u8 = 6;

// Prints some text.
fn print_text(rt: &impl Print, text: &[u8]) {
    print(rt, text);
}

// Prints a number.
fn print_number(rt: &impl Print, n: usize) {
    let _ = rt.print(n);
}

// ---- a record

// Puts how long a body is, if there is one.
fn put_body(out: &mut [u8], n: usize, came: bool, body: usize) -> usize {
    if came {
        return put_number(out, n, body);
    }
    put(out, n, b"none")
}

// Puts a Target in hexadecimal, a dash if it has no bytes.
fn put_target(out: &mut [u8], n: usize, target: Target) -> usize {
    if is_named(target) {
        let bytes = octets(target.bytes);
        return put_hex(out, n, front(&bytes, target.length), 16);
    }
    put(out, n, b"none")
}

// Puts what the client was answered, and whether it was told so.
fn put_answer(out: &mut [u8], n: usize, code: usize, is_told: bool) -> usize {
    if code == NO_CODE {
        return put(out, n, b"not answered");
    }
    let a = put(out, n, b"answered ");
    let b = put_byte(out, a, (code % 256) as u8);
    if is_told {
        return put(out, b, b", told");
    }
    b
}

// Puts some words, and a number.
fn put_at(out: &mut [u8], n: usize, words: &[u8], number: usize) -> usize {
    let a = put(out, n, words);
    put_number(out, a, number)
}

// Puts which block is faulty.
fn put_block(out: &mut [u8], n: usize, number: usize, fault: u8) -> usize {
    let a = put_at(out, n, b"block ", number);
    put_at(out, a, b": ", fault as usize)
}

// Puts what differs.
fn put_what(out: &mut [u8], n: usize, what: What) -> usize {
    match what {
        What::Same => put(out, n, b"same"),
        What::Headers(at) => put_at(out, n, b"headers differ at byte ", at),
        What::BodyMissing => put(out, n, b"body is missing"),
        What::BodyThere => put(out, n, b"body is there, and none came"),
        What::Block { number, fault } => put_block(out, n, number, fault),
        What::End => put(out, n, b"end: 13"),
        What::Body(at) => put_at(out, n, b"body differs at byte ", at),
        What::Long => put(out, n, b"body is longer than this program reads"),
        What::NoFile => put(out, n, b"no frame `file`"),
        What::OtherFile => put(out, n, b"frame `file` says something else"),
        What::Note => put(out, n, b"note differs"),
        What::Files => put(out, n, b"other files"),
    }
}

// Puts the verdict.
fn put_word(out: &mut [u8], n: usize, word: Word) -> usize {
    match word {
        Word::Missing => put(out, n, b"MISSING"),
        Word::NotFiled => put(out, n, b"not filed"),
        Word::NotFiledPart => put(out, n, b"not filed, part"),
        Word::Same => put(out, n, b"same"),
        Word::SameFiled => put(out, n, b"same, filed"),
        Word::Differs(what) => put_what(out, n, what),
    }
}

// Puts which record it is, and how long its headers and its body are.
fn put_lengths(out: &mut [u8], n: usize, number: u32, w: Waiting) -> usize {
    let a = put_at(out, n, b"record ", number as usize);
    let b = put_at(out, a, b": headers ", w.kept);
    let c = put(out, b, b", body ");
    put_body(out, c, w.came, w.body)
}

// Puts the Target of a record, and what it was answered.
fn put_marks(out: &mut [u8], n: usize, w: Waiting) -> usize {
    let target = w.target;
    let a = put(out, n, b", target ");
    let b = put_target(out, a, target);
    let c = put(out, b, b", ");
    put_answer(out, c, w.code, w.is_told)
}

// Puts the line on record `number` behind the first `n` bytes, and returns how many there are then.
pub(crate) fn put_record(
    rt: &impl Print,
    out: &mut [u8],
    n: usize,
    number: u32,
    w: Waiting,
    word: Word,
) -> usize {
    let a = put_lengths(out, n, number, w);
    let b = put_marks(out, a, w);
    let c = put(out, b, b": ");
    let d = put_word(out, c, word);
    let e = put(out, d, b"\n");
    flush(rt, out, e)
}

// Says that a record was not extracted.
pub(crate) fn not_extracted(err: &impl Print, number: u32) {
    print(err, b"record ");
    let _ = err.print(number);
    print(err, b": not extracted\n");
}

// ---- the log

// Prints the number of the end, or `none`.
fn print_done(rt: &impl Print, done: usize) {
    if done == NO_END {
        print_text(rt, b"none");
    } else {
        print_number(rt, done);
    }
}

// Prints the end of a whole log.
fn print_whole(rt: &impl Print, done: usize) {
    if done == NO_END {
        print_text(rt, b"whole, no end");
    } else {
        print_text(rt, b"whole, end ");
        print_number(rt, done);
    }
}

// Prints the frame at which the reading ended, and what is wrong with it.
fn print_frame(rt: &impl Print, place: Place, wrong: &[u8]) {
    print_text(rt, b"frame ");
    print_number(rt, place.number as usize);
    print_text(rt, b" at byte ");
    print_number(rt, wrapping_add_usize(place.passed, place.at));
    print_text(rt, b": ");
    print_text(rt, wrong);
}

// Returns what is wrong with the frame at which the reading ended.
fn wrong_of(end: End) -> &'static [u8] {
    match end {
        End::Damaged => b"11",
        End::Misplaced => b"12",
        End::Malformed => b"13",
        _ => b"longer than this program reads",
    }
}

// Prints how the reading ended.
fn print_end(rt: &impl Print, place: Place, end: End, done: usize) {
    match end {
        End::Whole => print_whole(rt, done),
        End::Cut => {
            print_text(rt, b"breaks off at byte ");
            print_number(rt, wrapping_add_usize(place.passed, place.at));
        }
        _ => print_frame(rt, place, wrong_of(end)),
    }
}

// Prints what is wrong with frame `number`, whose check is right.
fn print_wrong(rt: &impl Print, fault: u8, number: u32) {
    if fault == LIMIT {
        print_text(rt, b"limit over 1048576");
        return;
    }
    if fault == KIND {
        print_text(rt, b"kind at frame ");
        print_number(rt, number as usize);
        return;
    }
    print_text(rt, b"packet at frame ");
    print_number(rt, number as usize);
    print_text(rt, b" has another length");
}

// Prints the line on a log of which a frame was read, or that breaks off in the first.
fn print_frames(rt: &impl Print, place: Place, audit: Audit) {
    print_text(rt, b"log ");
    print_number(rt, place.number as usize);
    print_text(rt, b" frames, ");
    if audit.fault != 0 {
        print_wrong(rt, audit.fault, audit.fault_at);
    } else if let Some(end) = place.end {
        print_end(rt, place, end, audit.done);
    }
    print_text(rt, b"\n");
}

// Prints the line on the log.
pub(crate) fn print_log(rt: &impl Print, place: Place, audit: Audit) {
    if audit.fault == NO_OPEN {
        print_text(rt, b"the log does not begin with `open`\n");
        return;
    }
    match place.end {
        Some(End::NoLog) => print_text(rt, b"no log\n"),
        Some(End::NoFolder) => print_text(rt, b"no such folder\n"),
        Some(End::Whole) if place.number == 0 => print_text(rt, b"log is empty\n"),
        Some(end) if place.number == 0 && end != End::Cut => {
            print_text(rt, b"log ");
            print_frame(rt, place, wrong_of(end));
            print_text(rt, b"\n");
        }
        _ => print_frames(rt, place, audit),
    }
}

// Tells whether the end `done` is not the journal's, which is 0 if it knows none. A receiver's own numbers are 128 and more.
pub(crate) fn is_other_end(done: usize, number: u8) -> bool {
    number != 0 && done != number as usize && (number == HEADERS_TOO_LARGE || done < 128)
}

// Prints which end is due.
pub(crate) fn print_due(rt: &impl Print, done: usize, number: u8) {
    print_text(rt, b"end ");
    print_done(rt, done);
    print_text(rt, b", and ");
    print_number(rt, number as usize);
    print_text(rt, b" is due\n");
}

// ---- a session

// Prints which session it is: the last name of the path of its folder.
pub(crate) fn print_session(rt: &(impl Env + Print), i: usize) {
    let mut folder = [0u8; FOLDER];
    let n = argument(rt, i, &mut folder);
    print_text(rt, b"session ");
    print_text(rt, base_of(&folder[..n]));
    print_text(rt, b"\n");
}

// Prints that the log has no record of this number.
pub(crate) fn print_folder(rt: &impl Print, number: u32) {
    let name = record_name(number);
    print_text(rt, b"folder ");
    print_text(rt, &name);
    print_text(rt, b": no such record\n");
}

// Prints the counts of a session.
pub(crate) fn print_counts(rt: &impl Print, c: Counts) {
    print_text(rt, b"records ");
    print_number(rt, c.records);
    print_text(rt, b", same ");
    print_number(rt, c.same);
    print_text(rt, b", grave ");
    print_number(rt, c.grave);
    print_text(rt, b"\n");
}

// Prints the counts of all sessions.
pub(crate) fn print_totals(rt: &impl Print, sessions: usize, c: Counts) {
    print_text(rt, b"sessions ");
    print_number(rt, sessions);
    print_text(rt, b" records ");
    print_number(rt, c.records);
    print_text(rt, b" same ");
    print_number(rt, c.same);
    print_text(rt, b" grave ");
    print_number(rt, c.grave);
    print_text(rt, b"\n");
}
