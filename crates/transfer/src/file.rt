// The file that is put, or that is written with what was got. What is got goes under another name first, so that no half of a file is ever
// seen under its own.
ghost use Rattle.std.specs.Prelude.{◌≤◌, length};

use crate::order;
use files::fault::fail;
use files::system;
use lines::output::put;
use std::env::Env;
use std::fs::{Files, OpenFile, Permissions};
use std::io;
use std::io::{Read, Write};
use std::os::unix::fs::PermissionsExt;
use std::random::RandomSource;

// The system's number of the error of a file that is not open.
const EBADF: i32 = 9;

const PATH: usize = 4096;

// Opens the file that is to be put.
pub(crate) fn open<R: Env + Files>(rt: &R, err: &impl Print) -> Option<R::File> {
    let mut path = [0u8; PATH];
    let n = order::path(rt, &mut path);
    match system::open(rt, &path[0..n]) {
        Ok(file) => Some(file),
        Err(e) => {
            fail(err, b"file", &e);
            None
        }
    }
}

// Puts the path of the file that is written first into `store`: that of the file itself, and a word behind it that
// `system::create_temp` replaces.
fn put_part(rt: &impl Env, store: &mut [u8]) -> usize
    ensures { result ≤ length store.new }
{
    let n = order::path(rt, store);
    put(store, n, b".XXXXXX")
}

// Makes the file that is written first, with its path in `store`, and returns how long that is.
pub(crate) fn create<R: Env + Files + RandomSource>(
    rt: &R,
    err: &impl Print,
    held: &mut Option<R::File>,
    store: &mut [u8],
) -> usize {
    let n = put_part(rt, store);
    match system::create_temp(rt, &mut store[0..n]) {
        Ok(file) => {
            *held = Some(file);
        }
        Err(e) => fail(err, b"create", &e),
    }
    n
}

// Reads on in the file, once.
pub(crate) fn read<F: Read>(held: &mut Option<F>, store: &mut [u8]) -> io::Result<usize> {
    match held {
        Some(file) => file.read(store),
        None => Err(io::Error::from_raw_os_error(EBADF)),
    }
}

// Writes on in the file.
pub(crate) fn write<F: Write>(held: &mut Option<F>, bytes: &[u8]) -> io::Result<()> {
    match held {
        Some(file) => file.write_all(bytes),
        None => {
            if bytes.len() == 0 {
                return Ok(());
            }
            Err(io::Error::from_raw_os_error(EBADF))
        }
    }
}

// Makes the file readable as other files are, and closes it. Returns whether there was one and all of it is on the disk: the library's close
// tells of no error, so the file is synced before it.
fn close<F: OpenFile + Drop>(held: &mut Option<F>) -> bool {
    let is_whole = match held {
        Some(file) => {
            let _ = file.set_permissions(Permissions::from_mode(0o644));
            file.sync_all().is_ok()
        }
        None => false,
    };
    *held = None;
    is_whole
}

// Gives what was got its own name, and returns whether that went well.
fn rename<R: Env + Files>(rt: &R, err: &impl Print, part: &[u8]) -> bool {
    let mut path = [0u8; PATH];
    let n = order::path(rt, &mut path);
    match system::rename(rt, part, &path[0..n]) {
        Ok(()) => true,
        Err(e) => {
            fail(err, b"rename", &e);
            false
        }
    }
}

// Ends the file that is written: if all of it came, it gets its own name, and otherwise it goes.
pub(crate) fn end<R: Env + Files>(
    rt: &R,
    err: &impl Print,
    held: &mut Option<R::File>,
    part: &[u8],
    is_whole: bool,
) -> bool {
    if held.is_none() {
        return false;
    }
    let is_closed = close(held);
    if is_whole {
        if is_closed {
            return rename(rt, err, part);
        }
    }
    let _ = system::remove(rt, part);
    false
}
