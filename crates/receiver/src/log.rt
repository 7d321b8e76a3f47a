// The log of a session (docs/ARCHIVE.md#the-log): frames are appended to its file, each behind the check of the one before. What failed once
// is not written again, so that the log never has a gap.
ghost use Rattle.std.specs.Prelude.{◌≡◌, ◌≤◌, length};
ghost use Rattle.archive.specs.Writing.{writing};
ghost use Rattle.receiver.specs.Log.{frame_laid, framed_by};

use crate::system::{EBADF, EFBIG, Held, answer_of};
use archive::block::WriteError;
use digest::md5::{Octets16, octets16_at, put_octets16};
use files::path::front;
use filing::content::{Event, content_for, kind_of};
use filing::frame::{Head, Kind, write_frame};
use std::fs::OpenFile;
use std::io;
use std::io::Write;
use std::num::wrapping_add_usize;

// How long the store is in which frames and blocks are made and files are read.
pub(crate) const WORK: usize = 262144;

// The bytes of a check, which stands in front of a frame in the store.
const ROW: usize = 16;

// How long the payload of an event may be that is no packet.
const SHORT: usize = 1024;

// A log: the number of the error that ended it, or 0, the number of the next frame, the bytes so far, and the last check.
#[derive(Clone, Copy)]
pub(crate) struct Log {
    pub error: i32,
    pub number: u32,
    pub length: usize,
    pub check: Octets16,
}

// Returns an empty log.
pub(crate) fn empty() -> Log {
    Log {
        error: 0,
        number: 0,
        length: 0,
        check: Octets16 {
            first: 0,
            second: 0,
        },
    }
}

// Returns the log as it is once a call on its file has failed: nothing is written to it any more.
pub(crate) fn failed(log: Log, number: i32) -> Log {
    let check = log.check;
    Log {
        error: number,
        number: log.number,
        length: log.length,
        check,
    }
}

// A frame that is laid in the store behind the check of the one before: it has so many bytes, or it has no room.
#[derive(Clone, Copy)]
pub(crate) enum Framed {
    Bytes(usize),
    TooLong,
}

// Lays the next frame behind the last check at the front of the store.
fn lay_frame(
    log: Log,
    kind: Kind,
    clock: u32,
    payload: &[u8],
    work: &mut [u8],
) -> Result<usize, WriteError>
    requires { 16 ≤ length work.old }
    ensures { writing result work.new ≡ frame_laid log kind clock payload.now work.old }
{
    let check = log.check;
    let head = Head {
        kind,
        number: log.number,
        clock,
    };
    put_octets16(work, 0, check);
    write_frame(work, ROW, head, payload)
}

// Lays the next frame at the front of the store.
pub(crate) fn lay(log: Log, kind: Kind, clock: u32, payload: &[u8], work: &mut [u8; WORK]) -> Framed
    ensures value { result ≡ framed_by (frame_laid log kind clock payload.now work.old).answer }
    ensures store { work.new ≡ (frame_laid log kind clock payload.now work.old).target }
{
    match lay_frame(log, kind, clock, payload, work) {
        Ok(n) => Framed::Bytes(n),
        Err(_) => Framed::TooLong,
    }
}

// Writes on in the log's file.
fn write_bytes<F: Write>(file: &mut Option<F>, bytes: &[u8]) -> io::Result<()> {
    match file {
        Some(file) => file.write_all(bytes),
        None => Err(io::Error::from_raw_os_error(EBADF)),
    }
}

// Synchronises the log's file.
fn sync_file<F: OpenFile>(file: &Option<F>) -> io::Result<()> {
    match file {
        Some(file) => file.sync_all(),
        None => Err(io::Error::from_raw_os_error(EBADF)),
    }
}

// Writes the frame of `n` bytes that stands behind its check in the store.
fn write_frame_out<F: Write>(held: &mut Held<F>, log: Log, n: usize, work: &[u8]) -> Log {
    if work.len() < ROW {
        return failed(log, EFBIG);
    }
    if work.len() - ROW < n {
        return failed(log, EFBIG);
    }
    if log.number == u32::MAX {
        return failed(log, EFBIG);
    }
    let number = answer_of(write_bytes(&mut held.log, &work[ROW..ROW + n]));
    if number != 0 {
        return failed(log, number);
    }
    let check = octets16_at(work, n);
    Log {
        error: 0,
        number: log.number + 1,
        length: wrapping_add_usize(log.length, n),
        check,
    }
}

// Writes the frame that was laid, unless the log has failed before.
pub(crate) fn write_out<F: Write>(
    held: &mut Held<F>,
    log: Log,
    framed: Framed,
    work: &[u8; WORK],
) -> Log {
    if log.error != 0 {
        return log;
    }
    match framed {
        Framed::Bytes(n) => write_frame_out(held, log, n, work),
        Framed::TooLong => failed(log, EFBIG),
    }
}

// Appends a frame, unless the log has failed before.
pub(crate) fn append<F: Write>(
    held: &mut Held<F>,
    log: Log,
    kind: Kind,
    clock: u32,
    payload: &[u8],
    work: &mut [u8; WORK],
) -> Log {
    let framed = lay(log, kind, clock, payload, work);
    write_out(held, log, framed, work)
}

// Appends the frame of an event with its parts, which are short, unless the log has failed before.
pub(crate) fn append_event<F: Write>(
    held: &mut Held<F>,
    log: Log,
    event: Event,
    clock: u32,
    first: &[u8],
    second: &[u8],
    third: &[u8],
    work: &mut [u8; WORK],
) -> Log {
    let mut payload = [0u8; SHORT];
    let Ok(n) = content_for(&mut payload, event, first, second, third) else {
        return failed(log, EFBIG);
    };
    append(held, log, kind_of(event), clock, front(&payload, n), work)
}

// Synchronises the log. Returns 0, or the number of the error, which may be one that ended the log before.
pub(crate) fn sync<F: OpenFile>(held: &mut Held<F>, log: Log) -> i32 {
    if log.error != 0 {
        return log.error;
    }
    answer_of(sync_file(&held.log))
}
