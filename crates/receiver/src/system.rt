// Calls of the system that come out well or with the number of an error. No contract says what they do to a disk: what is read and written is
// handed to them, and what they answer is handed on.
use files::fault::number_of;
use files::system as disk;
use lines::input::read_full;
use std::fs::{Files, OpenFile};
use std::io;
use std::io::{Read, Write};

// The system's numbers of errors: there is no such file, a call failed for a reason that is not known, a file is not open, a name is taken, and a file
// is too large.
pub(crate) const ENOENT: i32 = 2;

pub(crate) const EIO: i32 = 5;

pub(crate) const EBADF: i32 = 9;

pub(crate) const EEXIST: i32 = 17;

pub(crate) const EFBIG: i32 = 27;

// The files that are open: the session's log, the rule file that is being sent, and the letters while a check of a password is being made.
#[derive(Drop)]
pub(crate) struct Held<F> {
    pub log: Option<F>,
    pub rule: Option<F>,
    pub check: Option<F>,
}

// Returns the number of an error. It is never 0, which stands for a call that went well.
pub(crate) fn error(e: &io::Error) -> i32 {
    let number = number_of(e);
    if number == 0 { EIO } else { number }
}

// Returns 0 for a call that went well, and otherwise the number of its error.
pub(crate) fn answer_of(res: io::Result<()>) -> i32 {
    match res {
        Ok(()) => 0,
        Err(e) => error(&e),
    }
}

fn try_write_new<R: Files>(rt: &R, path: &[u8], bytes: &[u8]) -> io::Result<()> {
    let mut file = disk::create_new(rt, path)?;
    file.write_all(bytes)?;
    file.sync_all()
}

// Makes a new file of these bytes, synchronises it and closes it. Returns 0, or the number of the error.
pub(crate) fn write_new<R: Files>(rt: &R, path: &[u8], bytes: &[u8]) -> i32 {
    answer_of(try_write_new(rt, path, bytes))
}

fn try_sync_folder<R: Files>(rt: &R, path: &[u8]) -> io::Result<()> {
    let folder = disk::open(rt, path)?;
    folder.sync_all()
}

// Synchronises the names of a folder. Returns 0, or the number of the error.
pub(crate) fn sync_folder<R: Files>(rt: &R, path: &[u8]) -> i32 {
    answer_of(try_sync_folder(rt, path))
}

// Makes a folder. Returns 0, or the number of the error.
pub(crate) fn make_folder<R: Files>(rt: &R, path: &[u8]) -> i32 {
    answer_of(disk::create_folder(rt, path))
}

// Gives a folder another name. Returns 0, or the number of the error.
pub(crate) fn rename<R: Files>(rt: &R, from: &[u8], to: &[u8]) -> i32 {
    answer_of(disk::rename(rt, from, to))
}

// What a file of the receiver's folder holds.
#[derive(Clone, Copy)]
pub(crate) enum Text {
    // So many bytes, which stand at the front of the store.
    Bytes(usize),
    // The file cannot be read; the number of the error.
    Failed(i32),
}

// Reads a whole file of less than `store` has room for. A longer one is refused as one that is too large.
pub(crate) fn read_whole<R: Files>(rt: &R, path: &[u8], store: &mut [u8]) -> Text {
    match disk::open(rt, path) {
        Ok(file) => {
            let mut file = file;
            let n = read_full(&mut file, store);
            if n == store.len() {
                return Text::Failed(EFBIG);
            }
            Text::Bytes(n)
        }
        Err(e) => Text::Failed(error(&e)),
    }
}

// Reads once, at most `room` bytes.
pub(crate) fn read_some<F: Read>(
    file: &mut Option<F>,
    room: usize,
    store: &mut [u8],
) -> io::Result<usize> {
    let Some(file) = file else {
        return Err(io::Error::from_raw_os_error(EBADF));
    };
    if room < store.len() {
        return file.read(&mut store[0..room]);
    }
    file.read(store)
}
