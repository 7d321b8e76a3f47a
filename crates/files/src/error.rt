// What an error of the system means for a file that was to be opened, by its number.
ghost use Rattle.std.specs.Prelude.{◌≡◌};
ghost use Rattle.files.specs.Errors.{refusal_of, read_alone, missing, is_full};

use packet::response::{FORBIDDEN, INTERNAL_SERVER_ERROR, NOT_FOUND};

// Linux's numbers of errors: an operation is not permitted, there is no such file, a socket cannot be opened, there is no permission, what
// should be a folder is none or the other way round, a program that is running cannot be opened for writing, a disk is full, a file system
// can only be read, there are too many links on the way, and a user's share of a disk is used up.
const EPERM: i32 = 1;

const ENOENT: i32 = 2;

const ENXIO: i32 = 6;

const EACCES: i32 = 13;

const ENOTDIR: i32 = 20;

const EISDIR: i32 = 21;

const ETXTBSY: i32 = 26;

const ENOSPC: i32 = 28;

const EROFS: i32 = 30;

const ELOOP: i32 = 40;

const EDQUOT: i32 = 122;

// Returns the code of the reply if a file cannot be opened.
// Stays a number for each: the code is the byte of a reply, and the error is the system's number of it.
pub fn refusal_of(error: i32) -> u8
    ensures { result ≡ refusal_of error }
{
    match error {
        ENOENT => NOT_FOUND,
        EACCES | EPERM | EISDIR | ELOOP | ENXIO => FORBIDDEN,
        _ => INTERNAL_SERVER_ERROR,
    }
}

// Returns whether a file that cannot be opened for writing may still be opened for reading.
pub fn is_read_only(error: i32) -> bool
    ensures { result ≡ read_alone error }
{
    matches!(error, EACCES | EPERM | EROFS | ETXTBSY)
}

// Returns whether a folder that cannot be opened is not there. A file of its name is no folder.
pub fn is_missing(error: i32) -> bool
    ensures { result ≡ missing error }
{
    matches!(error, ENOENT | ENOTDIR)
}

// Returns whether what was to be written has no room: on the disk, or in this user's share of it.
pub fn is_full(error: i32) -> bool
    ensures { result ≡ is_full error }
{
    matches!(error, ENOSPC | EDQUOT)
}
