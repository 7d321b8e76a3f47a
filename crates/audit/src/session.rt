// One session: its log read frame by frame, each record judged once nothing more is said of it, and the lines on it printed.
use crate::entry::{Audit, BODY, NO_OPEN, before_first, in_phase, take_frame};
use crate::filed::{FILED, found_of, is_extracted, is_session, is_taken};
use crate::path::{MOST, PATH, Task, below};
use crate::place::{End, Place, STORE, at_start, behind, frame_here, over, payload_at, read_more};
use crate::shown::{
    OUT, is_other_end, not_extracted, print_counts, print_due, print_folder, print_log,
    print_session, put_record,
};
use crate::verdict::{Counts, Word, counted, is_grave, with_grave, word_of};
use crate::waiting::{Phase, Waiting, is_over, is_waiting, must_settle};
use files::path::front;
use files::system;
use filing::frame::{NoFrame, read_frame};
use lines::output::write;
use std::env::Env;
use std::fs::Files;
use std::io;
use std::io::Read;
use std::num::wrapping_add_u32;

// How many numbers behind the last record are tried for a folder that the log does not have: the system's folders are not listed.
const BEHIND: u32 = 100;

// The stores that the sessions are read with, one after the other.
#[derive(Drop)]
pub(crate) struct Stores<'a> {
    // What is read of the log.
    pub log: &'a mut [u8; STORE],
    // Those of the journal.
    pub packet: &'a mut [u8; 65535],
    pub headers: &'a mut [u8; 65535],
    pub body: &'a mut [u8; BODY],
    pub tables: &'a mut [u64; 320],
    // A file of a filed record.
    pub filed: &'a mut [u8; FILED],
    // The lines that are collected.
    pub out: &'a mut [u8; OUT],
}

// Where the program stands in the log, what the frames before it say, what was counted, and how many bytes of lines are collected.
#[derive(Clone, Copy)]
struct Reading {
    task: Task,
    place: Place,
    audit: Audit,
    counts: Counts,
    written: usize,
}

// ---- a record

// Extracts a record if that was asked for and the verdict is grave.
fn extract_grave<R: Env + Files>(
    rt: &R,
    err: &impl Print,
    task: Task,
    number: u32,
    word: Word,
    came: bool,
    kept: &[u8],
    body: &[u8],
) {
    if task.extract == 0 {
        return;
    }
    if is_grave(word) {
        if !is_extracted(rt, task, number, came, kept, body) {
            not_extracted(err, number);
        }
    }
}

// Judges the last record, whose bytes stand in the stores, and puts the line on it.
fn settle<R: Env + Files + Print>(
    rt: &R,
    err: &impl Print,
    r: Reading,
    stores: &mut Stores<'_>,
) -> Reading {
    let w = r.audit.waiting;
    let number = r.audit.records;
    let kept = front(stores.headers, w.kept);
    let got = front(stores.body, w.body);
    let found = found_of(rt, r.task, number, w, r.audit.name, kept, got, stores.filed);
    let word = word_of(w.code, found);
    extract_grave(rt, err, r.task, number, word, w.came, kept, got);
    Reading {
        audit: in_phase(r.audit, Phase::Nothing),
        counts: counted(r.counts, word),
        written: put_record(rt, stores.out, r.written, number, w, word),
        ..r
    }
}

// ---- a frame

// Returns the reading with another place and what is then known.
fn moved(r: Reading, place: Place, audit: Audit) -> Reading {
    Reading { place, audit, ..r }
}

// Takes the frame at `place`, whose payload has `n` bytes, unless a record is to be judged before it.
fn pass(r: Reading, n: usize, stores: &mut Stores<'_>) -> Reading {
    let log = front(stores.log, r.place.have);
    let frame = frame_here(log, r.place, n);
    if must_settle(r.audit.waiting.phase, frame.letters) {
        return moved(r, r.place, in_phase(r.audit, Phase::Over));
    }
    let next = take_frame(
        r.audit,
        frame,
        payload_at(log, r.place.at, n),
        stores.packet,
        stores.headers,
        stores.body,
        stores.tables,
    );
    moved(r, behind(r.place, n), next)
}

// Takes the next frame, reads on or ends, by what stands at the place.
fn advance(file: &mut impl Read, r: Reading, stores: &mut Stores<'_>) -> Reading {
    let place = r.place;
    let next = match read_frame(front(stores.log, place.have), place.at, place.number) {
        Ok(n) => return pass(r, n, stores),
        Err(NoFrame::End | NoFrame::Cut) => read_more(file, stores.log, place),
        Err(NoFrame::Damaged) => over(place, End::Damaged),
        Err(NoFrame::Misplaced) => over(place, End::Misplaced),
        Err(NoFrame::Malformed) => over(place, End::Malformed),
    };
    moved(r, next, r.audit)
}

// Judges a record if one is due, else goes on in the log.
fn step<R: Env + Files + Print>(
    rt: &R,
    err: &impl Print,
    file: &mut impl Read,
    r: Reading,
    stores: &mut Stores<'_>,
) -> Reading {
    if is_over(r.audit.waiting.phase) {
        return settle(rt, err, r, stores);
    }
    advance(file, r, stores)
}

// Judges the last record if it still waits at the end of the log.
fn finished<R: Env + Files + Print>(
    rt: &R,
    err: &impl Print,
    r: Reading,
    stores: &mut Stores<'_>,
) -> Reading {
    let phase = r.audit.waiting.phase;
    if is_waiting(phase) || is_over(phase) {
        return settle(rt, err, r, stores);
    }
    r
}

// ---- the lines

// Tells whether the line on the log is grave.
fn is_log_grave(place: Place, fault: u8) -> bool {
    fault != 0 || !matches!(place.end, Some(End::Whole | End::Cut | End::NoLog))
}

// Tells whether nothing can be said of the records: the log does not begin with its first frame.
fn is_unreadable(place: Place, fault: u8) -> bool {
    fault == NO_OPEN || place.number == 0 && is_log_grave(place, fault)
}

// Tells whether something has the name of a record with this number, which the log does not have, and prints that.
fn is_folder<R: Env + Files + Print>(rt: &R, task: Task, number: u32) -> bool {
    if MOST < number || !is_taken(rt, task, number) {
        return false;
    }
    print_folder(rt, number);
    true
}

// Prints the folders that have the numbers of records which the log does not have, and returns the counts with them.
fn print_folders<R: Env + Files + Print>(
    rt: &R,
    task: Task,
    records: u32,
    counts: Counts,
) -> Counts {
    let mut c = counts;
    for i in 1..=BEHIND {
        c = with_grave(c, is_folder(rt, task, wrapping_add_u32(records, i)));
    }
    c
}

// Prints the lines behind the one on the log, and returns the counts of the session.
fn print_rest<R: Env + Files + Print>(rt: &R, r: Reading, out: &[u8; OUT]) -> Counts {
    let due = r.audit.state.number;
    let is_other = is_other_end(r.audit.done, due);
    if is_other {
        print_due(rt, r.audit.done, due);
    }
    write(rt, out, r.written);
    let c = print_folders(rt, r.task, r.audit.records, with_grave(r.counts, is_other));
    print_counts(rt, c);
    c
}

// Prints the lines on a session, and returns its counts.
fn print_all<R: Env + Files + Print>(rt: &R, r: Reading, out: &[u8; OUT]) -> Counts {
    let fault = r.audit.fault;
    let counts = with_grave(r.counts, is_log_grave(r.place, fault));
    print_log(rt, r.place, r.audit);
    if is_unreadable(r.place, fault) {
        return counts;
    }
    print_rest(rt, Reading { counts, ..r }, out)
}

// ---- the whole

// Returns what the reading of a session begins with.
fn begun(task: Task) -> Reading {
    Reading {
        task,
        place: at_start(),
        audit: before_first(),
        counts: Counts {
            records: 0,
            same: 0,
            grave: 0,
        },
        written: 0,
    }
}

// Reads the log to its end. A proved loop has to end, and nothing says that a file does, so the steps are counted up to a number that no run uses up.
fn read_log<R: Env + Files + Print>(
    rt: &R,
    err: &impl Print,
    file: &mut impl Read,
    task: Task,
    stores: &mut Stores<'_>,
) -> Reading {
    let mut r = begun(task);
    for _ in 0..u64::MAX {
        r = step(rt, err, file, r, stores);
        if r.place.end.is_some() {
            return finished(rt, err, r, stores);
        }
    }
    r
}

// Opens the log of the session.
fn open_log<R: Env + Files>(rt: &R, i: usize) -> io::Result<R::File> {
    let mut path = [0u8; PATH];
    let n = below(rt, i, b"session", &mut path);
    system::open(rt, &path[0..n])
}

// Returns what is missing of a session that has no log: the log alone, or its folder.
fn missing<R: Env + Files>(rt: &R, task: Task) -> End {
    if is_session(rt, task) {
        End::NoLog
    } else {
        End::NoFolder
    }
}

// Audits a session, prints its lines, and returns its counts.
pub(crate) fn audit_session<R: Env + Files + Print>(
    rt: &R,
    err: &impl Print,
    task: Task,
    stores: &mut Stores<'_>,
) -> Counts {
    print_session(rt, task.session);
    let r = match open_log(rt, task.session) {
        Ok(mut file) => read_log(rt, err, &mut file, task, stores),
        Err(_) => Reading {
            place: over(at_start(), missing(rt, task)),
            ..begun(task)
        },
    };
    print_all(rt, r, stores.out)
}
