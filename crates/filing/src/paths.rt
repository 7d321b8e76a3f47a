// The paths of what a receiver files and of what it gives out, below the folder that it was started with (docs/ARCHIVE.md#as-a-receiver-files-it).
ghost use Rattle.std.specs.Prelude.{◌≡◌, ◌≤◌, length, take};
ghost use Rattle.files.specs.Store.{filled, fit};
ghost use Rattle.filing.specs.Paths.{is_log, leaf_of, part_file, length_of, below, record_path, rule_path};

use crate::names::{part_name, session_name};
use base::copy_into;
use files::name::is_file_name;
use files::path::{front, join, service_folder};
use table::targets::Target;

// What names a session: the clock at its start, and 64 random bits.
#[derive(Clone, Copy)]
pub struct SessionId {
    pub clock: u32,
    pub high: u32,
    pub low: u32,
}

// What has a path below a receiver's folder.
#[derive(Clone, Copy)]
pub enum Place {
    // The folder of all sessions, that of one session, and its log.
    Archive,
    Session,
    Log,
    // The folder of a record that is being filed, and the files in it.
    Part,
    Headers,
    Body,
    Note,
    // The folder of a record that is filed.
    Record,
}

// A path below a receiver's folder: the first `length` bytes of `path`.
#[derive(Clone, Copy)]
struct Below {
    path: [u8; 61],
    length: usize,
}

// Tells whether a place is that of the log.
fn is_log(place: Place) -> bool
    ensures { result ≡ is_log place }
{
    match place {
        Place::Log => true,
        Place::Archive => false,
        Place::Session => false,
        Place::Part => false,
        Place::Headers => false,
        Place::Body => false,
        Place::Note => false,
        Place::Record => false,
    }
}

// Returns what stands in the session's folder, filled up to eleven bytes: the log, or the folder of record `number` while it is being filed.
fn leaf_of(place: Place, number: u32) -> [u8; 11]
    ensures { result ≡ leaf_of place number }
{
    if is_log(place) {
        return [b's', b'e', b's', b's', b'i', b'o', b'n', 0, 0, 0, 0];
    }
    part_name(number)
}

// Returns the name of a file in a record's folder, filled up to seven bytes.
fn file_of(place: Place) -> [u8; 7]
    ensures { result ≡ part_file place }
{
    match place {
        Place::Body => [b'b', b'o', b'd', b'y', 0, 0, 0],
        Place::Note => [b'n', b'o', b't', b'e', 0, 0, 0],
        Place::Archive => [b'h', b'e', b'a', b'd', b'e', b'r', b's'],
        Place::Session => [b'h', b'e', b'a', b'd', b'e', b'r', b's'],
        Place::Log => [b'h', b'e', b'a', b'd', b'e', b'r', b's'],
        Place::Part => [b'h', b'e', b'a', b'd', b'e', b'r', b's'],
        Place::Headers => [b'h', b'e', b'a', b'd', b'e', b'r', b's'],
        Place::Record => [b'h', b'e', b'a', b'd', b'e', b'r', b's'],
    }
}

// Returns how long the path of a place is. The folder of a filed record has six digits, which begin the name that it had before.
fn length_of(place: Place) -> usize
    ensures value { result ≡ length_of place }
    ensures small { result ≤ 61 }
{
    match place {
        Place::Archive => 7,
        Place::Session => 41,
        Place::Record => 48,
        Place::Log => 49,
        Place::Part => 53,
        Place::Body => 58,
        Place::Note => 58,
        Place::Headers => 61,
    }
}

// Makes the path of a place below a receiver's folder.
fn path_below(session: SessionId, number: u32, place: Place) -> Below
    ensures value { take result.length result.path ≡ below session number place }
    ensures room { result.length ≤ 61 }
{
    let mut path = [b'/'; 61];
    let name = session_name(session.clock, session.high, session.low);
    let leaf = leaf_of(place, number);
    let file = file_of(place);
    copy_into(&mut path, 0, b"archive");
    copy_into(&mut path, 8, &name);
    copy_into(&mut path, 42, &leaf);
    copy_into(&mut path, 54, &file);
    Below {
        path,
        length: length_of(place),
    }
}

// Puts the path of a place at the front of `path`, and returns how long it is: 0 if there is no room for it. `folder` is the receiver's folder,
// `number` the record's number if the place is one of a record. No byte of a client's is in it.
pub fn record_path(
    folder: &[u8],
    session: SessionId,
    number: u32,
    place: Place,
    path: &mut [u8],
) -> usize
    ensures value { filled result path.new ≡ fit (record_path folder.now session number place) path.old }
    ensures room { result ≤ length path.new }
{
    let found = path_below(session, number, place);
    let bytes = found.path;
    join(folder, front(&bytes, found.length), path)
}

// Puts the path of the rule file `name` at the front of `path`, and returns how long it is: 0 if no file may have that name, or if there is no room.
// `target` is the Target under which the connection was opened.
pub fn rule_path(folder: &[u8], target: Target, name: &[u8], path: &mut [u8]) -> usize
    ensures value { filled result path.new ≡ fit (rule_path folder.now target name.now) path.old }
    ensures room { result ≤ length path.new }
{
    if !is_file_name(name) {
        return 0;
    }
    let service = service_folder(target);
    let bytes = service.name;
    let mut inner = [0u8; 296];
    let n = join(front(&bytes, service.length), name, &mut inner);
    let mut outer = [0u8; 302];
    let m = join(b"rules", front(&inner, n), &mut outer);
    join(folder, front(&outer, m), path)
}
