// Calls of the system on files whose paths are bytes. The library takes a path as text, so bytes that are no text are the path of no file.
use base::copy_into;
use std::fs::{Files, OpenOptions};
use std::io::ErrorKind;
use std::os::unix::fs::OpenOptionsExt;
use std::random::RandomSource;
use std::{fs, io, str};

// The system's numbers of errors: a path that is no text, a name without room for random letters, and a name that is taken.
const EILSEQ: i32 = 84;

const EINVAL: i32 = 22;

const EEXIST: i32 = 17;

// How many random letters the name of a temporary file ends with.
const LETTERS: usize = 6;

// How many names are tried for a temporary file.
const TRIES: usize = 238328;

// Returns a path as text.
fn text_of(path: &[u8]) -> io::Result<&str> {
    match str::from_utf8(path) {
        Ok(text) => Ok(text),
        Err(_) => Err(io::Error::from_raw_os_error(EILSEQ)),
    }
}

// Opens a file for reading.
// Stays beside `open_overwrite`: one line each, which differ in the library's word; with that word as a closure they would be no shorter.
pub fn open<R: Files>(rt: &R, path: &[u8]) -> io::Result<R::File> {
    fs::open(rt, text_of(path)?)
}

// Opens a file for reading and writing, and leaves its bytes as they are.
// Stays beside the three below: each is a path read as text and the options that make it what it is, which stand nowhere else.
pub fn open_update<R: Files>(rt: &R, path: &[u8]) -> io::Result<R::File> {
    let path = text_of(path)?;
    OpenOptions::new().read(true).write(true).open(rt, path)
}

// Opens a file to write behind its end.
pub fn open_append<R: Files>(rt: &R, path: &[u8]) -> io::Result<R::File> {
    let path = text_of(path)?;
    OpenOptions::new().append(true).open(rt, path)
}

// Opens a file for writing and empties it, or makes it where it is missing.
pub fn open_overwrite<R: Files>(rt: &R, path: &[u8]) -> io::Result<R::File> {
    fs::create(rt, text_of(path)?)
}

// Makes a file, open for writing. Fails where the name is taken.
pub fn create_new<R: Files>(rt: &R, path: &[u8]) -> io::Result<R::File> {
    let path = text_of(path)?;
    OpenOptions::new()
        .write(true)
        .create_new(true)
        .open(rt, path)
}

// Makes a file that nobody else may open, open for reading and writing. Fails where the name is taken.
fn create_private<R: Files>(rt: &R, path: &[u8]) -> io::Result<R::File> {
    let path = text_of(path)?;
    OpenOptions::new()
        .read(true)
        .write(true)
        .create_new(true)
        .mode(0o600)
        .open(rt, path)
}

// Returns a letter for a random byte.
fn letter(b: u8) -> u8 {
    b'a' + b % 26
}

// Puts random letters at the end of a name.
fn put_letters(random: &impl RandomSource, name: &mut [u8]) -> io::Result<()> {
    let mut bytes = [0u8; LETTERS];
    random.fill_bytes(&mut bytes)?;
    if name.len() < LETTERS {
        return Err(io::Error::from_raw_os_error(EINVAL));
    }
    let letters = [
        letter(bytes[0]),
        letter(bytes[1]),
        letter(bytes[2]),
        letter(bytes[3]),
        letter(bytes[4]),
        letter(bytes[5]),
    ];
    let at = name.len() - LETTERS;
    copy_into(name, at, &letters);
    Ok(())
}

// Makes a temporary file that nobody else may open, open for reading and writing. Random letters replace the last six bytes of its path; a
// name that is taken is tried again with others.
pub fn create_temp<R: Files + RandomSource>(rt: &R, path: &mut [u8]) -> io::Result<R::File> {
    for _ in 0..TRIES {
        put_letters(rt, path)?;
        match create_private(rt, path) {
            Ok(file) => {
                return Ok(file);
            }
            Err(e) => {
                if e.kind() != ErrorKind::AlreadyExists {
                    return Err(e);
                }
            }
        }
    }
    Err(io::Error::from_raw_os_error(EEXIST))
}

// Gives a file or a folder another name.
pub fn rename(rt: &impl Files, from: &[u8], to: &[u8]) -> io::Result<()> {
    fs::rename(rt, text_of(from)?, text_of(to)?)
}

// Removes a file.
// Stays beside `create_folder`: one line each, which differ in the library's word.
pub fn remove(rt: &impl Files, path: &[u8]) -> io::Result<()> {
    fs::remove_file(rt, text_of(path)?)
}

// Makes a folder.
pub fn create_folder(rt: &impl Files, path: &[u8]) -> io::Result<()> {
    fs::create_dir(rt, text_of(path)?)
}

// Returns whether a path is that of a symbolic link.
pub fn is_link(rt: &impl Files, path: &[u8]) -> bool {
    let Ok(path) = text_of(path) else {
        return false;
    };
    match fs::symlink_metadata(rt, path) {
        Ok(metadata) => metadata.is_symlink(),
        Err(_) => false,
    }
}
