// What is filed of a record beside the record that the log stands for, file by file.
ghost use Rattle.std.specs.Prelude.{◌≡◌, length};
ghost use Rattle.archive.specs.Block.{same};
ghost use Rattle.archive.specs.Writing.{writing};
ghost use Rattle.audit.specs.Compare.{differ_at, is_held, headers_what, fault_what, damaged_what, same_body, unfiled_what, row_what, named_length, payload_what, file_what, text_what, there_what};

use crate::place::from_place;
use crate::waiting::{FileFrame, KEPT};
use archive::block::{is_same, judge, read};
use digest::md5::octets;
use files::path::front;
use filing::file::{RecordMarks, file_row};
use filing::note::write_note;
use table::targets::{Target, is_named};

// What a filed record is beside the log's.
#[derive(Clone, Copy)]
pub(crate) enum What {
    Same,
    // The headers differ, first at this byte.
    Headers(usize),
    // A body came, and none is filed; none came, and one is filed.
    BodyMissing,
    BodyThere,
    // The block with this number is the first that is faulty, with this number.
    Block { number: usize, fault: u8 },
    // No block is faulty; bytes are left over, or the last block is missing.
    End,
    // The bodies differ, first at this byte.
    Body(usize),
    // The body's file is longer than this program reads.
    Long,
    // The log has no frame `file` of the record, or one that says something else.
    NoFile,
    OtherFile,
    // A file of the folder is missing.
    Files,
    Note,
}

// The payload bytes of as many blocks as the body's file may have.
pub(crate) const ROOM: usize = 1049090;

// The bytes of a block.
const BLOCK: usize = 512;

// How many bytes of the payload of a frame `file` are in front of the Target.
const ROW: usize = 49;

// Returns where two pieces of bytes differ first: the end of the shorter one if it begins the other.
fn differ_at(a: &[u8], b: &[u8]) -> usize
    ensures { result ≡ differ_at a.now b.now }
{
    let mut i = 0;
    while i < a.len() {
        if b.len() <= i {
            return i;
        }
        if a[i] != b[i] {
            return i;
        }
        i += 1;
    }
    i
}

// Tells whether two pieces are the same bytes.
fn is_equal(a: &[u8], b: &[u8]) -> bool
    ensures { result ≡ same a.now b.now }
{
    if a.len() != b.len() {
        return false;
    }
    is_same(a, b)
}

// Tells whether a file is there and has the bytes that are due.
fn is_held(is_there: bool, filed: &[u8], due: &[u8]) -> bool
    ensures { result ≡ is_held is_there filed.now due.now }
{
    if !is_there {
        return false;
    }
    is_equal(filed, due)
}

// Compares the headers; there are no bytes of a file that is not there.
pub(crate) fn headers_what(is_there: bool, filed: &[u8], kept: &[u8]) -> What
    ensures { result ≡ headers_what is_there filed.now kept.now }
{
    if is_held(is_there, filed, kept) {
        return What::Same;
    }
    What::Headers(differ_at(filed, kept))
}

// ---- the body

// Returns what blocks are of which the first `sound` of `count` have no fault.
fn fault_what(fault: u8, sound: usize, count: usize) -> What
    ensures { result ≡ fault_what fault sound count }
{
    if sound < count {
        return What::Block {
            number: sound,
            fault,
        };
    }
    What::End
}

// Returns what blocks are that do not read as a body.
fn damaged_what(blocks: &[u8]) -> What
    ensures { result ≡ damaged_what blocks.now }
{
    let j = judge(blocks);
    match j.body {
        Ok(_) => What::Long,
        Err(error) => fault_what(error.number(), j.sound, blocks.len() / BLOCK),
    }
}

// Compares the body that was filed with the one that came.
fn same_body(filed: &[u8], body: &[u8]) -> What
    ensures { result ≡ same_body filed.now body.now }
{
    if is_equal(filed, body) {
        return What::Same;
    }
    What::Body(differ_at(filed, body))
}

// Compares the body that some blocks hold with the one that came. It is read to `had`.
pub(crate) fn body_what(blocks: &[u8], body: &[u8], had: &mut [u8; ROOM]) -> What {
    match read(blocks, had) {
        Ok(n) => same_body(front(had, n), body),
        Err(_) => damaged_what(blocks),
    }
}

// Returns what a record is that has no file `body`, if a body came.
pub(crate) fn unfiled_what(came: bool) -> What
    ensures { result ≡ unfiled_what came }
{
    if came {
        return What::BodyMissing;
    }
    What::Same
}

// ---- the frame `file`, and the note

// Returns how many bytes a Target has; the mark has none.
fn target_length(target: Target) -> usize
    ensures { result ≡ named_length target }
{
    if is_named(target) { target.length } else { 0 }
}

// Compares the payload of a frame `file` with the row and the Target that are due.
fn row_what(payload: &[u8], row: &[u8], target: &[u8]) -> What
    ensures { result ≡ row_what payload.now row.now target.now }
{
    if !is_equal(front(payload, ROW), row) {
        return What::OtherFile;
    }
    if !is_equal(from_place(payload, ROW), target) {
        return What::OtherFile;
    }
    What::Same
}

// Compares the payload of the frame `file` of record `number` with what it owes.
fn payload_what(
    payload: &[u8],
    number: u32,
    came: bool,
    target: Target,
    headers: &[u8],
    body: &[u8],
) -> What
    ensures { result ≡ payload_what payload.now number came target headers.now body.now }
{
    let marks = RecordMarks {
        number,
        has_body: came,
        has_target: is_named(target),
    };
    let bytes = octets(target.bytes);
    let due = front(&bytes, target_length(target));
    let row = file_row(marks, headers, body, due);
    row_what(payload, &row, due)
}

// Compares the frame `file` of record `number`, if there is one, with what it owes.
pub(crate) fn file_what(
    file: FileFrame,
    number: u32,
    came: bool,
    target: Target,
    headers: &[u8],
    body: &[u8],
) -> What
    ensures { result ≡ file_what file number came target headers.now body.now }
{
    if !file.is_there {
        return What::NoFile;
    }
    if KEPT < file.size {
        return What::OtherFile;
    }
    let payload = file.row;
    payload_what(
        front(&payload, file.size),
        number,
        came,
        target,
        headers,
        body,
    )
}

// Compares a note with the text that is due.
fn text_what(filed: &[u8], due: &[u8]) -> What
    ensures { result ≡ text_what filed.now due.now }
{
    if is_equal(filed, due) {
        return What::Same;
    }
    What::Note
}

// Returns what a record is of which a file is there, or is missing.
pub(crate) fn there_what(is_there: bool) -> What
    ensures { result ≡ there_what is_there }
{
    if is_there { What::Same } else { What::Files }
}

// Compares a note with the one that is due: `sum` is the MD5 of the body's blocks.
pub(crate) fn note_what(file: FileFrame, name: [u8; 33], sum: [u8; 16], filed: &[u8]) -> What {
    let payload = file.row;
    let place = file.place;
    let check = octets(file.check);
    let mut text = [0u8; 1024];
    match write_note(
        &mut text,
        &name,
        place,
        front(&payload, file.size),
        &check,
        &sum,
    ) {
        Ok(n) => text_what(filed, front(&text, n)),
        Err(_) => What::Note,
    }
}
