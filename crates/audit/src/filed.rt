// What is filed of a record, read from its folder and compared with the log's.
use crate::compare::{
    ROOM, What, body_what, file_what, headers_what, note_what, there_what, unfiled_what,
};
use crate::entry::NAME;
use crate::path::{FOLDER, MOST, PATH, Task, below, extract_file, part_folder, record_file};
use crate::verdict::{Found, is_same};
use crate::waiting::Waiting;
use digest::md5::digest;
use files::path::front;
use files::system;
use filing::names::record_name;
use lines::arguments::argument;
use lines::input::read_full;
use std::env::Env;
use std::fs::Files;
use std::io::Write;

// How many bytes the store of a filed file holds: one block more than the longest body takes.
pub(crate) const FILED: usize = 1096192;

// Tells whether a file or a folder is there and can be opened.
fn is_there<R: Files>(rt: &R, path: &[u8]) -> bool {
    system::open(rt, path).is_ok()
}

// Reads a file to the front of `store`, as much of it as there is room for, and returns how many bytes that are; none if it is not there.
fn read_file<R: Files>(rt: &R, path: &[u8], store: &mut [u8]) -> Option<usize> {
    let mut file = system::open(rt, path).ok()?;
    Some(read_full(&mut file, store))
}

// Reads a file of a record.
fn read_record<R: Env + Files>(
    rt: &R,
    task: Task,
    number: u32,
    file: &[u8],
    store: &mut [u8],
) -> Option<usize> {
    let mut path = [0u8; PATH];
    let n = record_file(rt, task.session, number, file, &mut path);
    read_file(rt, &path[0..n], store)
}

// ---- one file after the other

// Compares the headers.
fn headers_filed<R: Env + Files>(
    rt: &R,
    task: Task,
    number: u32,
    kept: &[u8],
    filed: &mut [u8; FILED],
) -> What {
    let held = read_record(rt, task, number, b"headers", filed);
    headers_what(held.is_some(), front(filed, held.unwrap_or(0)), kept)
}

// Compares the body with what was read of its file. A file that fills the store may go on behind it.
fn body_held(
    held: Option<usize>,
    came: bool,
    body: &[u8],
    filed: &[u8; FILED],
    had: &mut [u8; ROOM],
) -> What {
    let Some(n) = held else {
        return unfiled_what(came);
    };
    if !came {
        return What::BodyThere;
    }
    if FILED <= n {
        return What::Long;
    }
    body_what(front(filed, n), body, had)
}

// Compares the body.
fn body_filed(held: Option<usize>, came: bool, body: &[u8], filed: &[u8; FILED]) -> What {
    let mut had = [0u8; ROOM];
    body_held(held, came, body, filed, &mut had)
}

// Compares the note; `sum` is the MD5 of the body's blocks.
fn note_filed<R: Env + Files>(
    rt: &R,
    task: Task,
    number: u32,
    w: Waiting,
    name: [u8; NAME],
    sum: [u8; 16],
) -> What {
    let mut text = [0u8; 1025];
    let held = read_record(rt, task, number, b"note", &mut text);
    let what = there_what(held.is_some());
    if !is_same(what) {
        return what;
    }
    note_what(w.file, name, sum, front(&text, held.unwrap_or(0)))
}

// Compares the frame `file`, and then the note.
fn rest_filed<R: Env + Files>(
    rt: &R,
    task: Task,
    number: u32,
    w: Waiting,
    name: [u8; NAME],
    kept: &[u8],
    body: &[u8],
    blocks: &[u8],
) -> What {
    let what = file_what(w.file, number, w.came, w.target, kept, body);
    if !is_same(what) {
        return what;
    }
    note_filed(rt, task, number, w, name, digest(blocks))
}

// Compares the files of a record with what the log has: the first that differs is told.
fn compared<R: Env + Files>(
    rt: &R,
    task: Task,
    number: u32,
    w: Waiting,
    name: [u8; NAME],
    kept: &[u8],
    body: &[u8],
    filed: &mut [u8; FILED],
) -> What {
    let first = headers_filed(rt, task, number, kept, filed);
    if !is_same(first) {
        return first;
    }
    let held = read_record(rt, task, number, b"body", filed);
    let second = body_filed(held, w.came, body, filed);
    if !is_same(second) {
        return second;
    }
    rest_filed(
        rt,
        task,
        number,
        w,
        name,
        kept,
        body,
        front(filed, held.unwrap_or(0)),
    )
}

// ---- a record

// Tells whether the folder of a record that was not filed to its end is there.
fn has_part<R: Env + Files>(rt: &R, task: Task, number: u32) -> bool {
    let mut path = [0u8; PATH];
    let n = part_folder(rt, task.session, number, &mut path);
    is_there(rt, &path[0..n])
}

// Tells whether the folder of a record is there.
fn has_folder<R: Env + Files>(rt: &R, task: Task, number: u32) -> bool {
    let mut path = [0u8; PATH];
    let n = record_file(rt, task.session, number, b".", &mut path);
    number <= MOST && is_there(rt, &path[0..n])
}

// Returns what is found of record `number`, which the log has with these headers and this body.
pub(crate) fn found_of<R: Env + Files>(
    rt: &R,
    task: Task,
    number: u32,
    w: Waiting,
    name: [u8; NAME],
    kept: &[u8],
    body: &[u8],
    filed: &mut [u8; FILED],
) -> Found {
    if has_folder(rt, task, number) {
        return Found::There(compared(rt, task, number, w, name, kept, body, filed));
    }
    if has_part(rt, task, number) {
        return Found::Part;
    }
    Found::Absent
}

// Tells whether the session's folder is there.
pub(crate) fn is_session<R: Env + Files>(rt: &R, task: Task) -> bool {
    let mut path = [0u8; PATH];
    let n = below(rt, task.session, b".", &mut path);
    is_there(rt, &path[0..n])
}

// Tells whether something has the name of record `number`.
pub(crate) fn is_taken<R: Env + Files>(rt: &R, task: Task, number: u32) -> bool {
    let name = record_name(number);
    let mut path = [0u8; PATH];
    let n = below(rt, task.session, &name, &mut path);
    is_there(rt, &path[0..n])
}

// ---- extracting

// Writes a file of an extracted record, and returns whether all of it was written.
fn is_extract_written<R: Env + Files>(
    rt: &R,
    task: Task,
    number: u32,
    end: &[u8],
    bytes: &[u8],
) -> bool {
    let mut path = [0u8; PATH];
    let n = extract_file(rt, task, number, end, &mut path);
    match system::open_overwrite(rt, &path[0..n]) {
        Ok(mut file) => file.write_all(bytes).is_ok(),
        Err(_) => false,
    }
}

// Writes a record as the log has it to the folder for what is extracted, which is made if it is not there. Returns whether all was written.
pub(crate) fn is_extracted<R: Env + Files>(
    rt: &R,
    task: Task,
    number: u32,
    came: bool,
    kept: &[u8],
    body: &[u8],
) -> bool {
    let mut folder = [0u8; FOLDER];
    let n = argument(rt, task.extract, &mut folder);
    let _ = system::create_folder(rt, &folder[..n]);
    if !is_extract_written(rt, task, number, b"headers", kept) {
        return false;
    }
    if came {
        return is_extract_written(rt, task, number, b"body", body);
    }
    true
}
