// The note beside a record (docs/ARCHIVE.md#the-note), from what the log says of it.
ghost use Rattle.std.specs.Prelude.{◌≡◌, [], ◌∷◌, ◌++◌, ◌+◌, ◌*◌, ◌/◌, ◌%◌, ◌≤◌, eqb, length, drop};
ghost use Rattle.std.proofs.Math.Option.{none, some};
ghost use Rattle.archive.specs.Writing.{writing};
ghost use Rattle.calendar.specs.Time.{decimal};
ghost use Rattle.files.specs.Path.{hex_digit, hex_of};
ghost use Rattle.base.specs.Pick.{pick};
ghost use Rattle.filing.specs.FileFrame.{frame_with};
ghost use Rattle.filing.specs.Note.{stripped, decimal_of, Laid};
ghost use Rattle.filing.specs.Note.{record_line, filed_line, headers_line, body_line, target_line, log_line, sum_lines, note_of, right_lengths, note_written};

use crate::file::{FileNumbers, read_file};
use crate::names::hex_digit;
use archive::block::WriteError;
use base::{copy_into, wide32};
use calendar::time::write_time;

// Where the frame `file` of a record stands.
#[derive(Clone, Copy)]
pub struct LogPlace {
    // The receiver's clock, in seconds since 1970.
    pub clock: u32,
    // The frame's number.
    pub frame: u32,
    // How many bytes the log has up to the frame's end.
    pub bytes: usize,
}

// A store of this length has room for every note.
const ROOM: usize = 1024;

// The lengths of a session's name and of an MD5.
const NAME: usize = 33;

const SUM: usize = 16;

// The shortest and the longest payload of a frame `file`.
const SHORTEST: usize = 49;

const LONGEST: usize = 303;

// The mark of a record without a Target.
const NO_TARGET: u8 = 255;

// ---- numbers and bytes as text

// Writes the last digits of `x`, as many as `text` has places.
fn write_digits(text: &mut [u8], x: usize)
    ensures { text.new ≡ decimal (length text.old) x }
{
    let mut i = text.len();
    let mut left = x;
    while i > 0 {
        i -= 1;
        text[i] = b'0' + (left % 10) as u8;
        left /= 10;
    }
}

// Returns the place of the first digit that is not a zero, or of the last digit.
fn first_digit(text: &[u8]) -> usize
    ensures value { drop result text.now ≡ stripped text.now }
    ensures small { result ≤ length text.now }
{
    let mut i = 0;
    while i < text.len() {
        if i + 1 == text.len() {
            return i;
        }
        if text[i] != b'0' {
            return i;
        }
        i += 1;
    }
    i
}

// Returns the two hexadecimal digits of `b`.
fn hex_pair(b: u8) -> [u8; 2]
    ensures { result ≡ hex_digit (b / 16 % 16) ∷ hex_digit (b % 16) ∷ [] }
{
    let x = wide32(b);
    [hex_digit(x / 16), hex_digit(x)]
}

// ---- laid in a store, each at place `at`; the result is the place behind it

// Lays some bytes.
fn put_text(store: &mut [u8], at: usize, text: &[u8]) -> usize
    requires { at + length text.now ≤ length store.old }
    ensures value { Laid store.old at text.now result store.new }
    ensures small { result ≤ at + length text.now }
{
    copy_into(store, at, text);
    at + text.len()
}

// Lays a number.
fn put_number(store: &mut [u8], at: usize, x: usize) -> usize
    requires { at + 20 ≤ length store.old }
    ensures value { Laid store.old at (decimal_of x) result store.new }
    ensures small { result ≤ at + 20 }
{
    let mut text = [0u8; 20];
    write_digits(&mut text, x);
    let from = first_digit(&text);
    put_text(store, at, &text[from..])
}

// Lays bytes in hexadecimal.
fn put_hex(store: &mut [u8], at: usize, bytes: &[u8]) -> usize
    requires { at + 2 * length bytes.now ≤ length store.old }
    ensures value { Laid store.old at (hex_of bytes.now) result store.new }
    ensures small { result ≤ at + 2 * length bytes.now }
{
    let mut i = 0;
    let mut to = at;
    while i < bytes.len() {
        let two = hex_pair(bytes[i]);
        to = put_text(store, to, &two);
        i += 1;
    }
    to
}

// Lays a number between two texts.
fn put_counted(store: &mut [u8], at: usize, before: &[u8], x: usize, behind: &[u8]) -> usize
    requires { at + (length before.now + (20 + length behind.now)) ≤ length store.old }
    ensures value { Laid store.old at (before.now ++ (decimal_of x ++ behind.now)) result store.new }
    ensures small { result ≤ at + (length before.now + (20 + length behind.now)) }
{
    let a = put_text(store, at, before);
    let b = put_number(store, a, x);
    put_text(store, b, behind)
}

// Lays bytes in hexadecimal between two texts.
fn put_hexed(store: &mut [u8], at: usize, before: &[u8], bytes: &[u8], behind: &[u8]) -> usize
    requires { at + (length before.now + (2 * length bytes.now + length behind.now)) ≤ length store.old }
    ensures value { Laid store.old at (before.now ++ (hex_of bytes.now ++ behind.now)) result store.new }
    ensures small { result ≤ at + (length before.now + (2 * length bytes.now + length behind.now)) }
{
    let a = put_text(store, at, before);
    let b = put_hex(store, a, bytes);
    put_text(store, b, behind)
}

// ---- the lines

// Lays which record of which session it is, and when it was filed.
fn put_record(store: &mut [u8], name: &[u8], number: u32, clock: u32) -> usize
    requires { 67 + length name.now ≤ length store.old }
    ensures value { Laid store.old 0 (record_line number name.now ++ filed_line clock) result store.new }
    ensures small { result ≤ 67 + length name.now }
{
    let mut time = [0u8; 16];
    let _ = write_time(clock, &mut time);
    let a = put_counted(store, 0, b"# record ", number as usize, b" of session ");
    let b = put_text(store, a, name);
    let c = put_text(store, b, b"\n# filed ");
    let d = put_text(store, c, &time);
    put_text(store, d, b"\n")
}

// Lays the lengths of headers and body.
fn put_sizes(store: &mut [u8], at: usize, numbers: FileNumbers) -> usize
    requires { at + 102 ≤ length store.old }
    ensures value { Laid store.old at (headers_line numbers.headers ++ body_line numbers.body numbers.blocks) result store.new }
    ensures small { result ≤ at + 102 }
{
    let a = put_counted(
        store,
        at,
        b"# headers ",
        numbers.headers as usize,
        b" bytes\n",
    );
    if numbers.blocks == 0 {
        return put_text(store, a, b"# body none\n");
    }
    let b = put_counted(store, a, b"# body ", numbers.body as usize, b" bytes in ");
    put_counted(store, b, b"", numbers.blocks as usize, b" blocks\n")
}

// Lays the Target whose mark is `mark`.
fn put_target(store: &mut [u8], at: usize, mark: u8, target: &[u8]) -> usize
    requires { at + (14 + 2 * length target.now) ≤ length store.old }
    ensures value { Laid store.old at (target_line (pick (eqb mark 255) none (some target.now))) result store.new }
    ensures small { result ≤ at + (14 + 2 * length target.now) }
{
    if mark == NO_TARGET {
        return put_text(store, at, b"# target none\n");
    }
    if target.len() == 0 {
        return put_text(store, at, b"# target -\n");
    }
    put_hexed(store, at, b"# target ", target, b"\n")
}

// Lays where the frame stands in the log.
fn put_place(store: &mut [u8], at: usize, place: LogPlace, check: &[u8]) -> usize
    requires { at + (75 + 2 * length check.now) ≤ length store.old }
    ensures value { Laid store.old at (log_line place check.now) result store.new }
    ensures small { result ≤ at + (75 + 2 * length check.now) }
{
    let a = put_counted(
        store,
        at,
        b"# log frames 0 to ",
        place.frame as usize,
        b", ",
    );
    let b = put_counted(store, a, b"", place.bytes, b" bytes, check ");
    put_hexed(store, b, b"", check, b"\n")
}

// Lays the MD5s of the files, that of the body only if it takes blocks.
fn put_sums(store: &mut [u8], at: usize, blocks: u32, headers: &[u8], body: &[u8]) -> usize
    requires { at + (17 + (2 * length headers.now + 2 * length body.now)) ≤ length store.old }
    ensures value { Laid store.old at (sum_lines blocks headers.now body.now) result store.new }
    ensures small { result ≤ at + (17 + (2 * length headers.now + 2 * length body.now)) }
{
    let a = put_hexed(store, at, b"", headers, b"  headers\n");
    if blocks == 0 {
        return a;
    }
    put_hexed(store, a, b"", body, b"  body\n")
}

// ---- the note

// Tells whether a session's name, a check, an MD5 and the payload of a frame `file` may have these lengths.
fn are_lengths_right(name: usize, check: usize, body: usize, payload: usize) -> bool
    ensures { result ≡ right_lengths name check body payload }
{
    if name != NAME {
        return false;
    }
    if check != SUM {
        return false;
    }
    if body != SUM {
        return false;
    }
    if payload < SHORTEST {
        return false;
    }
    payload <= LONGEST
}

// Lays the note of a record, of which the payload of its frame was read.
fn put_note(
    store: &mut [u8],
    name: &[u8],
    place: LogPlace,
    numbers: FileNumbers,
    payload: &[u8],
    check: &[u8],
    body: &[u8],
) -> usize
    requires { (1024 ≤ length store.old) × (length name.now ≡ 33) × (length check.now ≡ 16) × (length body.now ≡ 16)
        × (49 ≤ length payload.now) × (length payload.now ≤ 303) }
    ensures value { Laid
        store.old
        0
        (note_of name.now place (frame_with numbers payload.now) check.now body.now)
        result
        store.new }
    ensures small { result ≤ 1024 }
{
    let blocks = numbers.blocks;
    let mark = numbers.target;
    let a = put_record(store, name, numbers.number, place.clock);
    let b = put_sizes(store, a, numbers);
    let c = put_target(store, b, mark, &payload[49..]);
    let d = put_place(store, c, place, check);
    put_sums(store, d, blocks, &payload[16..32], body)
}

// Writes the note of a record to the front of `store`, and returns its length. `payload` is that of the record's frame `file`, which stands at
// `place` of the log and has the check `check`; `body` is the MD5 of the body's blocks, of no account if there is no body. A store with less room
// than the longest note needs is told before bytes that are no payload.
pub fn write_note(
    store: &mut [u8],
    name: &[u8],
    place: LogPlace,
    payload: &[u8],
    check: &[u8],
    body: &[u8],
) -> Result<usize, WriteError>
    ensures { writing result store.new
        ≡ note_written store.old name.now place payload.now check.now body.now }
{
    if store.len() < ROOM {
        return Err(WriteError::Short);
    }
    if !are_lengths_right(name.len(), check.len(), body.len(), payload.len()) {
        return Err(WriteError::TooLong);
    }
    let Some(numbers) = read_file(payload) else {
        return Err(WriteError::TooLong);
    };
    Ok(put_note(store, name, place, numbers, payload, check, body))
}
