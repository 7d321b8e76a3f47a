// The checks of passwords over all connections (docs/PROTOCOL.md#eight-wrong): every process appends a letter for each check to the file `checks`,
// and judges by the 64 letters in front of its own.
ghost use Rattle.std.specs.Prelude.{◌≡◌, ◌≤◌};
ghost use Rattle.receiver.specs.Checks.{has_open, letter_verdict, letter_for, is_lasting};

use crate::path::{PATH, in_folder};
use crate::system::{EBADF, EIO, ENOENT, Held, answer_of, error, sync_folder};
use files::fault::number_of;
use files::path::front;
use files::system as disk;
use filing::payload::CheckMade;
use filing::tries::is_check_allowed;
use lines::input::read;
use std::env::Env;
use std::fs::{Files, OpenFile};
use std::io;
use std::io::{Read, Seek, SeekFrom, Write};
use std::thread::yield_now;

// How many letters count.
const WINDOW: usize = 64;

// How often the letters are read again while checks before this one are being made.
const TRIES: usize = 1000;

// A check that is being made: the place of its letter, whether it is allowed, and the number of the error by which there is none, or 0.
#[derive(Clone, Copy)]
pub(crate) struct Try {
    pub place: u64,
    pub error: i32,
    pub allowed: bool,
}

// What the letters in front of a check say.
#[derive(Clone, Copy)]
pub(crate) enum Verdict {
    Allowed,
    Stopped,
    // Too many are wrong if all checks that are being made come out wrong.
    Open,
}

// Tells whether a check among the letters is being made.
fn has_open(letters: &[u8]) -> bool
    ensures { result ≡ has_open letters.now }
{
    let mut i = 0;
    while i < letters.len() {
        if letters[i] == b'?' {
            return true;
        }
        i += 1;
    }
    false
}

// Judges by the letters in front of a check.
#[tactic(auto, unfolding(crate::specs::Checks::letter_verdict))]
fn judge(letters: &[u8]) -> Verdict
    ensures { result ≡ letter_verdict letters.now }
{
    if is_check_allowed(letters) {
        return Verdict::Allowed;
    }
    if has_open(letters) {
        return Verdict::Open;
    }
    Verdict::Stopped
}

// Returns how many of the letters in front of `place` count.
fn count_before(place: u64) -> usize
    ensures { result ≤ 64 }
{
    if place < 64 {
        return place as usize;
    }
    WINDOW
}

// Sets the file's place to the first of the letters that count in front of `place`.
fn seek_window<F: Seek>(file: &mut F, place: u64, count: usize) {
    if count < WINDOW {
        let _ = file.seek(SeekFrom::Start(0));
        return;
    }
    let _ = file.seek(SeekFrom::Start(place));
    let _ = file.seek(SeekFrom::Current(-64));
}

// Reads the letters in front of `place` and judges by them. If they cannot be read, the check is stopped.
fn look<F: Read + Seek>(file: &mut F, place: u64) -> Verdict {
    let mut letters = [0u8; WINDOW];
    let count = count_before(place);
    seek_window(file, place, count);
    if read(file, &mut letters[0..count]) != count {
        return Verdict::Stopped;
    }
    judge(front(&letters, count))
}

// Judges by the letters in front of `place`. While checks are being made that decide, other processes go first.
fn is_allowed<F: Read + Seek>(file: &mut F, place: u64) -> bool {
    let mut left = TRIES;
    while left > 0 {
        match look(file, place) {
            Verdict::Allowed => {
                return true;
            }
            Verdict::Stopped => {
                return false;
            }
            Verdict::Open => {
                yield_now();
            }
        }
        left -= 1;
    }
    false
}

// Makes the file, if there is none, and synchronises its name. Another process may make it at the same time.
fn make_file<R: Env + Files>(rt: &R, path: &[u8]) {
    match disk::create_new(rt, path) {
        Ok(_) => {}
        Err(_) => {
            return;
        }
    }
    let mut folder = [0u8; PATH];
    let n = in_folder(rt, b".", &mut folder);
    sync_folder(rt, &folder[0..n]);
}

// Opens the file to append to it, and makes it first if there is none.
fn open_append<R: Env + Files>(rt: &R, path: &[u8]) -> io::Result<R::File> {
    match disk::open_append(rt, path) {
        Ok(file) => Ok(file),
        Err(e) => {
            if number_of(&e) != ENOENT {
                return Err(e);
            }
            make_file(rt, path);
            disk::open_append(rt, path)
        }
    }
}

// Writes one letter.
fn write_letter<F: Write>(file: &mut F, letter: u8) -> io::Result<()> {
    let one = [letter];
    let n = file.write(&one)?;
    if n != 1 {
        return Err(io::Error::from_raw_os_error(EIO));
    }
    Ok(())
}

// Appends a letter, and returns its place.
fn append_letter<R: Env + Files>(rt: &R, path: &[u8], letter: u8) -> io::Result<u64> {
    let mut file = open_append(rt, path)?;
    write_letter(&mut file, letter)?;
    file.seek(SeekFrom::Current(-1))
}

// Returns a check that cannot be made.
fn refused(number: i32) -> Try {
    Try {
        place: 0,
        error: number,
        allowed: false,
    }
}

// Returns the letter of a check.
#[tactic(auto, unfolding(crate::specs::Checks::letter_for))]
pub(crate) fn letter_of(made: CheckMade) -> u8
    ensures { result ≡ letter_for made }
{
    if made.stopped {
        return b's';
    }
    if made.right {
        return b'r';
    }
    b'w'
}

// Begins a check: puts an open letter behind the others, and judges by those in front of it.
pub(crate) fn begin<R: Env + Files>(rt: &R, held: &mut Held<R::File>) -> Try {
    let mut path = [0u8; PATH];
    let n = in_folder(rt, b"checks", &mut path);
    match append_letter(rt, &path[0..n], b'?') {
        Ok(place) => watch(rt, held, place, &path[0..n]),
        Err(e) => refused(error(&e)),
    }
}

// Goes on with a check whose letter stands at `place`: judges by those in front of it.
fn watch<R: Files>(rt: &R, held: &mut Held<R::File>, place: u64, path: &[u8]) -> Try {
    match disk::open_update(rt, path) {
        Ok(file) => {
            let mut file = file;
            let allowed = is_allowed(&mut file, place);
            held.check = Some(file);
            Try {
                place,
                error: 0,
                allowed,
            }
        }
        Err(e) => refused(error(&e)),
    }
}

// Tells whether a letter is synchronised: a wrong one, so that a power cut buys no further try.
fn is_lasting(letter: u8) -> bool
    ensures { result ≡ is_lasting letter }
{
    letter == b'w'
}

// Puts the letter of a check at its place. A wrong one is synchronised.
fn put_letter<F: Write + Seek + OpenFile>(
    file: &mut Option<F>,
    place: u64,
    letter: u8,
) -> io::Result<()> {
    let Some(file) = file else {
        return Err(io::Error::from_raw_os_error(EBADF));
    };
    file.seek(SeekFrom::Start(place))?;
    write_letter(file, letter)?;
    if is_lasting(letter) {
        return file.sync_all();
    }
    Ok(())
}

// Ends a check with its letter. Returns 0, or the number of the error.
pub(crate) fn end<F: Write + Seek + OpenFile + Drop>(
    held: &mut Held<F>,
    t: Try,
    letter: u8,
) -> i32 {
    if t.error != 0 {
        return t.error;
    }
    let number = answer_of(put_letter(&mut held.check, t.place, letter));
    held.check = None;
    number
}

// Appends the letter of a check that the engine has stopped by itself.
pub(crate) fn add_stop<R: Env + Files>(rt: &R) {
    let mut path = [0u8; PATH];
    let n = in_folder(rt, b"checks", &mut path);
    let _ = append_letter(rt, &path[0..n], b's');
}

// Returns the check that stands for none.
pub(crate) fn no_check() -> Try {
    refused(EIO)
}
