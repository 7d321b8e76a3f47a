// Rule files: the file of a Get is rules/service-HEX/NAME, HEX the Target under which the connection was opened, or rules/NAME.
use crate::path::FOLDER;
use files::error::{is_read_only, refusal_of};
use files::fault::number_of;
use files::name::name_in;
use files::system as disk;
use filing::paths::rule_path;
use lines::arguments::argument;
use packet::response::{FORBIDDEN, INTERNAL_SERVER_ERROR};
use std::env::Env;
use std::fs::Files;
use std::io;
use std::io::{Seek, SeekFrom};
use table::targets::Target;

// A rule file: it is open and has so many bytes, or the code of the reply.
pub(crate) enum Opened<F> {
    File { file: F, size: u32 },
    Code(u8),
}

// Opens a file for reading. An open for reading waits for ever at a pipe that nobody writes to, and one for reading and
// writing does not; so that comes first, and nothing is written.
fn open_file<R: Files>(rt: &R, path: &[u8]) -> io::Result<R::File> {
    match disk::open_update(rt, path) {
        Ok(file) => Ok(file),
        Err(e) => {
            if is_read_only(number_of(&e)) {
                return disk::open(rt, path);
            }
            Err(e)
        }
    }
}

// Sets the place in a file, and tells whether it is the first then.
fn is_at_start<F: Seek>(file: &mut F, to: SeekFrom) -> bool {
    match file.seek(to) {
        Ok(0) => true,
        _ => false,
    }
}

// Finds how long an open file is. What has no place in it, as a pipe, is refused, and a file of 2^32 bytes or more cannot be sent.
fn sized<F: Seek + Drop>(file: F) -> Opened<F> {
    let mut file = file;
    if !is_at_start(&mut file, SeekFrom::Current(0)) {
        return Opened::Code(FORBIDDEN);
    }
    let size = match file.seek(SeekFrom::End(0)) {
        Ok(n) => n,
        Err(_) => 0,
    };
    if !is_at_start(&mut file, SeekFrom::Start(0)) {
        return Opened::Code(INTERNAL_SERVER_ERROR);
    }
    if size > 4294967295 {
        return Opened::Code(INTERNAL_SERVER_ERROR);
    }
    Opened::File {
        file,
        size: size as u32,
    }
}

// Opens a plain file: neither a link nor a folder nor a pipe.
fn open_plain<R: Files>(rt: &R, path: &[u8]) -> Opened<R::File> {
    if disk::is_link(rt, path) {
        return Opened::Code(FORBIDDEN);
    }
    match open_file(rt, path) {
        Ok(file) => sized(file),
        Err(e) => Opened::Code(refusal_of(number_of(&e))),
    }
}

// The path of a rule file: the first `length` bytes of the store, and from `below` on it is the path below `rules`.
#[derive(Clone, Copy)]
pub(crate) struct RulePath {
    pub below: usize,
    pub length: usize,
}

// How long `/rules/` is.
const RULES: usize = 7;

// Puts the path of the rule file that a Get names at the front of `path`. No path, of 0 bytes, is that of a Name that no file may have.
pub(crate) fn find_rule(
    rt: &impl Env,
    target: Target,
    headers: &[u8],
    path: &mut [u8],
) -> RulePath {
    let mut folder = [0u8; FOLDER];
    let mut name = [0u8; 255];
    let k = argument(rt, 1, &mut folder);
    let n = name_in(headers, &mut name);
    let length = rule_path(&folder[..k], target, &name[0..n], path);
    RulePath {
        below: k + RULES,
        length,
    }
}

// Opens the rule file with this path.
pub(crate) fn open_rule<R: Files>(rt: &R, path: &[u8]) -> Opened<R::File> {
    if path.len() == 0 {
        return Opened::Code(FORBIDDEN);
    }
    open_plain(rt, path)
}
