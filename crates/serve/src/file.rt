// Files of a folder: the working folder, or that of a service. Only a name that may be served is opened or written.
ghost use Rattle.std.specs.Prelude.{◌≡◌, true};
ghost use Rattle.files.specs.Name.{file_name};

use crate::folder::{LONGEST, join};
use crate::log;
use crate::path::part_name;
use files::error::{is_read_only, refusal_of};
use files::fault::{fail, number_of};
use files::name::{is_file_name, name_in};
use files::path::{Folder, front};
use files::system;
use lines::arguments::has_argument;
use packet::response::{CONFLICT, FORBIDDEN, INTERNAL_SERVER_ERROR, NOT_IMPLEMENTED, SUCCESS};
use std::env::Env;
use std::fs::{Files, OpenFile, Permissions};
use std::io;
use std::io::{ErrorKind, Seek, SeekFrom, Write};
use std::os::unix::fs::PermissionsExt;
use std::random::RandomSource;

// The system's number of the error of a call that a file system does not have.
const EINVAL: i32 = 22;

// ---- a Put

// Whether a file that is there stays: the program was started with an argument, which `main` has looked at.
fn keeps(rt: &impl Env) -> bool {
    has_argument(rt, 1)
}

// Writes `bytes` to the file, and returns whether they are all on the disk.
fn put_all<F: Write + OpenFile>(file: &mut F, bytes: &[u8]) -> io::Result<()> {
    file.write_all(bytes)?;
    file.sync_all()
}

// Writes `bytes` to the file, readable as other files are, and closes it. Returns whether they are all on the disk.
fn filled<F: Write + OpenFile + Drop>(err: &impl Print, file: F, bytes: &[u8]) -> bool {
    let mut file = file;
    let _ = file.set_permissions(Permissions::from_mode(0o644));
    match put_all(&mut file, bytes) {
        Ok(()) => true,
        Err(e) => {
            fail(err, b"write", &e);
            false
        }
    }
}

// Brings the folder itself to the disk, so that a name that was given in it stays. A file system that has no such thing says so, and then
// nothing more can be done.
fn sync_folder<R: Files>(rt: &R, folder: Folder) -> io::Result<()> {
    let mut path = [0u8; LONGEST];
    let n = join(folder, b".", &mut path);
    let file = system::open(rt, &path[0..n])?;
    match file.sync_all() {
        Ok(()) => Ok(()),
        Err(e) => {
            if number_of(&e) == EINVAL {
                return Ok(());
            }
            Err(e)
        }
    }
}

// Takes a name that no file has, and returns the code of the reply if that is not possible. Two Puts of one Name cannot both take it.
fn reserved<R: Files>(rt: &R, err: &impl Print, folder: Folder, name: &[u8]) -> u8
    requires { file_name name.now ≡ true }
{
    let mut path = [0u8; LONGEST];
    let n = join(folder, name, &mut path);
    match system::create_new(rt, &path[0..n]) {
        Ok(_) => SUCCESS,
        Err(e) => {
            if e.kind() == ErrorKind::AlreadyExists {
                return CONFLICT;
            }
            fail(err, b"create", &e);
            INTERNAL_SERVER_ERROR
        }
    }
}

// Gives a whole file its name, and returns the code of the reply.
fn renamed<R: Files>(rt: &R, err: &impl Print, folder: Folder, from: &[u8], name: &[u8]) -> u8
    requires { file_name name.now ≡ true }
{
    let mut path = [0u8; LONGEST];
    let n = join(folder, name, &mut path);
    if let Err(e) = system::rename(rt, from, &path[0..n]) {
        fail(err, b"rename", &e);
        return INTERNAL_SERVER_ERROR;
    }
    if let Err(e) = sync_folder(rt, folder) {
        fail(err, b"folder", &e);
        return INTERNAL_SERVER_ERROR;
    }
    SUCCESS
}

// Removes the empty file by which a name was taken.
fn remove<R: Files>(rt: &R, folder: Folder, name: &[u8])
    requires { file_name name.now ≡ true }
{
    let mut path = [0u8; LONGEST];
    let n = join(folder, name, &mut path);
    let _ = system::remove(rt, &path[0..n]);
}

// Gives a whole file its name if no file has it. A name that was taken for it is given up if that fails.
fn renamed_new<R: Files>(rt: &R, err: &impl Print, folder: Folder, from: &[u8], name: &[u8]) -> u8
    requires { file_name name.now ≡ true }
{
    let taken = reserved(rt, err, folder, name);
    if taken != SUCCESS {
        return taken;
    }
    let code = renamed(rt, err, folder, from, name);
    if code != SUCCESS {
        remove(rt, folder, name);
    }
    code
}

fn named<R: Env + Files>(rt: &R, err: &impl Print, folder: Folder, from: &[u8], name: &[u8]) -> u8
    requires { file_name name.now ≡ true }
{
    if keeps(rt) {
        return renamed_new(rt, err, folder, from, name);
    }
    renamed(rt, err, folder, from, name)
}

// Gives a file its name if it is whole. Gives the code of the reply.
fn named_if<R: Env + Files>(
    rt: &R,
    err: &impl Print,
    is_whole: bool,
    folder: Folder,
    from: &[u8],
    name: &[u8],
) -> u8
    requires { file_name name.now ≡ true }
{
    if is_whole {
        return named(rt, err, folder, from, name);
    }
    INTERNAL_SERVER_ERROR
}

// Writes a new file whose path is `temporary`, of which `create_temp` replaces the end, and gives it its name. Gives the code of the
// reply.
fn write_as<R: Env + Files + RandomSource>(
    rt: &R,
    err: &impl Print,
    folder: Folder,
    temporary: &mut [u8],
    name: &[u8],
    bytes: &[u8],
) -> u8
    requires { file_name name.now ≡ true }
{
    let code = match system::create_temp(rt, temporary) {
        Ok(file) => named_if(rt, err, filled(err, file, bytes), folder, temporary, name),
        Err(e) => {
            fail(err, b"create", &e);
            return INTERNAL_SERVER_ERROR;
        }
    };
    if code != SUCCESS {
        let _ = system::remove(rt, temporary);
    }
    code
}

// Writes under another name first, so that no half of a file is ever seen and a link is replaced. Nobody can ask for that name, which
// carries the number of this process, so that the next start knows whose the file was. Gives the code of the reply.
fn write<R: Env + Files + RandomSource>(
    rt: &R,
    err: &impl Print,
    process: u32,
    folder: Folder,
    name: &[u8],
    bytes: &[u8],
) -> u8
    requires { file_name name.now ≡ true }
{
    let part = part_name(process);
    let mut temporary = [0u8; LONGEST];
    let n = join(folder, &part, &mut temporary);
    write_as(rt, err, folder, &mut temporary[0..n], name, bytes)
}

// Writes `bytes` to the file `name`, unless no file may have that name. Gives the code of the reply.
fn write_named<R: Env + Files + RandomSource>(
    rt: &R,
    err: &impl Print,
    process: u32,
    folder: Folder,
    name: &[u8],
    bytes: &[u8],
) -> u8 {
    if is_file_name(name) {
        return write(rt, err, process, folder, name, bytes);
    }
    FORBIDDEN
}

// Writes a Put's body to the file of its Name. Gives the code of the reply.
fn put<R: Env + Files + RandomSource>(
    rt: &R,
    err: &impl Print,
    process: u32,
    folder: Folder,
    headers: &[u8],
    bytes: &[u8],
) -> u8 {
    let mut store = [0u8; 255];
    let n = name_in(headers, &mut store);
    let code = write_named(rt, err, process, folder, &store[0..n], bytes);
    let mut path = [0u8; LONGEST];
    let k = join(folder, &store[0..n], &mut path);
    log::put(err, &path[0..k], bytes.len(), code);
    code
}

// Stores the body of a Put, and gives the code of the reply. By convention a Put without a body asks for the file to be removed,
// which the program does not do.
pub(crate) fn put_body<R: Env + Files + RandomSource>(
    rt: &R,
    err: &impl Print,
    process: u32,
    folder: Folder,
    headers: &[u8],
    content: Option<usize>,
    body: &[u8],
) -> u8 {
    match content {
        Some(n) => put(rt, err, process, folder, headers, front(body, n)),
        None => {
            log::put(err, b"", 0, NOT_IMPLEMENTED);
            NOT_IMPLEMENTED
        }
    }
}

// ---- a Get

// What became of a Get's file: it is open, or the code of the reply.
pub enum Opened<F> {
    File(F),
    Code(u8),
}

// Opens a file for reading. An open for reading waits for ever at a pipe that nobody writes to, and one for reading and
// writing does not; so that comes first, and nothing is written.
fn open_file<R: Files>(rt: &R, folder: Folder, name: &[u8]) -> io::Result<R::File>
    requires { file_name name.now ≡ true }
{
    let mut path = [0u8; LONGEST];
    let n = join(folder, name, &mut path);
    match system::open_update(rt, &path[0..n]) {
        Ok(file) => Ok(file),
        Err(e) => {
            if is_read_only(number_of(&e)) {
                return system::open(rt, &path[0..n]);
            }
            Err(e)
        }
    }
}

// Refuses what has no place in it, as a pipe.
fn seekable<F: Seek + Drop>(file: F) -> Opened<F> {
    let mut file = file;
    match file.seek(SeekFrom::Current(0)) {
        Ok(0) => Opened::File(file),
        _ => Opened::Code(FORBIDDEN),
    }
}

// Returns whether a name is that of a symbolic link.
fn is_linked<R: Files>(rt: &R, folder: Folder, name: &[u8]) -> bool
    requires { file_name name.now ≡ true }
{
    let mut path = [0u8; LONGEST];
    let n = join(folder, name, &mut path);
    system::is_link(rt, &path[0..n])
}

// Opens a plain file of the folder: neither a link nor a folder nor a pipe.
fn open_plain<R: Files>(rt: &R, folder: Folder, name: &[u8]) -> Opened<R::File>
    requires { file_name name.now ≡ true }
{
    if is_linked(rt, folder, name) {
        return Opened::Code(FORBIDDEN);
    }
    match open_file(rt, folder, name) {
        Ok(file) => seekable(file),
        Err(e) => Opened::Code(refusal_of(number_of(&e))),
    }
}

fn open_named<R: Files>(rt: &R, folder: Folder, name: &[u8]) -> Opened<R::File> {
    if is_file_name(name) {
        return open_plain(rt, folder, name);
    }
    Opened::Code(FORBIDDEN)
}

// Returns the code that says why a file could not be opened, or Success.
fn code_of<F>(opened: &Opened<F>) -> u8 {
    match opened {
        Opened::File(_) => SUCCESS,
        Opened::Code(code) => *code,
    }
}

// Opens the file of a Get's Name.
pub(crate) fn get<R: Files>(
    rt: &R,
    err: &impl Print,
    folder: Folder,
    headers: &[u8],
) -> Opened<R::File> {
    let mut store = [0u8; 255];
    let n = name_in(headers, &mut store);
    let opened = open_named(rt, folder, &store[0..n]);
    let mut path = [0u8; LONGEST];
    let k = join(folder, &store[0..n], &mut path);
    log::get(err, &path[0..k], code_of(&opened));
    opened
}
