// A frame of the log, written and read (docs/ARCHIVE.md#the-log). A store has the check of the frame before in front of a frame, so that the
// check is of one stretch of bytes; frame 0 has none before it.
ghost use Rattle.std.specs.Prelude.{◌≡◌, ◌+◌, ◌≤◌, ◌++◌, leb, length, drop};
ghost use Rattle.base.specs.Bytes.{bytes32};
ghost use Rattle.archive.specs.Writing.{writing};
ghost use Rattle.filing.specs.Frame.{filling, frame_length, chain_at, before_at, rows_laid, check_laid, frame_written};
ghost use Rattle.filing.specs.Reading.{size_in, frame_fault, turn_for, turn_at};
ghost use Rattle.filing.specs.Kinds.{kind_number, content_in};

use archive::block::{WriteError, is_same, is_zero};
use base::copy_into;
use digest::md5::digest;
use packet::header::be32_at;

// What a frame is; `letters_of` gives the four letters of each.
#[derive(Clone, Copy)]
pub enum Kind {
    // The first frame: the settings.
    Open,
    // A packet that came; the bytes of one that never became whole.
    Recv,
    Part,
    // A reply that was sent.
    Sent,
    // The host's reply; its object.
    Answ,
    Objt,
    // A check of a password; the nonce of a challenge.
    Pass,
    Nonc,
    // The ids that the host closed together.
    Clos,
    // A record that is to be filed; a step that failed.
    File,
    Fail,
    // The end.
    Done,
}

// What is known of a frame except for its payload.
#[derive(Clone, Copy)]
pub struct Head {
    pub kind: Kind,
    pub number: u32,
    // Seconds since 1970.
    pub clock: u32,
}

// Why `read_frame` finds no frame.
#[derive(Clone, Copy, PartialEq, Eq)]
pub enum NoFrame {
    // The log ends here.
    End,
    // The log breaks off in the middle of a frame.
    Cut,
    // The check is wrong.
    Damaged,
    // The number is not the next.
    Misplaced,
    // The filling is not zero.
    Malformed,
}

// The bytes of a row, of a frame's head and of a check.
const ROW: usize = 16;

// The bytes of a frame without payload: its head and its check.
const LEAST: usize = 32;

// The longest payload.
const LONGEST: usize = 4294967295;

// Returns the four letters of a frame as one number.
// Stays a number for each: they are the letters that stand in the log (docs/ARCHIVE.md#the-log).
pub fn kind_number(kind: Kind) -> u32
    ensures { result ≡ kind_number kind }
{
    match kind {
        Kind::Open => 0x6F70656E,
        Kind::Recv => 0x72656376,
        Kind::Part => 0x70617274,
        Kind::Sent => 0x73656E74,
        Kind::Answ => 0x616E7377,
        Kind::Objt => 0x6F626A74,
        Kind::Pass => 0x70617373,
        Kind::Nonc => 0x6E6F6E63,
        Kind::Clos => 0x636C6F73,
        Kind::File => 0x66696C65,
        Kind::Fail => 0x6661696C,
        Kind::Done => 0x646F6E65,
    }
}

// Counts the zeros that fill a payload of `n` bytes up to a whole row.
fn filling(n: usize) -> usize
    ensures { result ≡ filling n }
{
    (ROW - n % ROW) % ROW
}

// Tells whether a frame with `n` payload bytes fits at place `at` of `total` bytes.
fn has_room(total: usize, at: usize, n: usize) -> bool
    ensures { result ≡ leb (at + frame_length n) total }
{
    if total < at {
        return false;
    }
    let left = total - at;
    if left < n {
        return false;
    }
    LEAST + filling(n) <= left - n
}

// Returns the place from which on the check of frame `number` at place `at` is taken.
fn chain_at(at: usize, number: u32) -> usize
    ensures value { result ≡ chain_at at number }
    ensures back { result ≤ at }
{
    if number == 0 {
        return at;
    }
    if at < ROW {
        return 0;
    }
    at - ROW
}

// ---- writing

// Makes the first row of a frame with `n` payload bytes.
fn first_row(kind: u32, number: u32, n: usize, clock: u32) -> [u8; 16]
    ensures { result ≡ bytes32 kind ++ (bytes32 number ++ (bytes32 n ++ bytes32 clock)) }
{
    [
        (kind / 16777216 % 256) as u8,
        (kind / 65536 % 256) as u8,
        (kind / 256 % 256) as u8,
        (kind % 256) as u8,
        (number / 16777216 % 256) as u8,
        (number / 65536 % 256) as u8,
        (number / 256 % 256) as u8,
        (number % 256) as u8,
        (n / 16777216 % 256) as u8,
        (n / 65536 % 256) as u8,
        (n / 256 % 256) as u8,
        (n % 256) as u8,
        (clock / 16777216 % 256) as u8,
        (clock / 65536 % 256) as u8,
        (clock / 256 % 256) as u8,
        (clock % 256) as u8,
    ]
}

// Writes the rows of a frame except for the check.
fn write_rows(store: &mut [u8], at: usize, head: Head, payload: &[u8])
    requires { at + frame_length (length payload.now) ≤ length store.old }
    ensures { store.new ≡ rows_laid store.old at head.number (content_in head payload.now) }
{
    let n = payload.len();
    let kind = head.kind;
    let row = first_row(kind_number(kind), head.number, n, head.clock);
    let zeros = [0u8; 16];
    copy_into(store, at, &row);
    copy_into(store, at + ROW, payload);
    copy_into(store, at + ROW + n, &zeros[0..filling(n)]);
}

// Writes the check of frame `number`, whose rows stand at place `at`.
fn write_check(store: &mut [u8], at: usize, number: u32, n: usize)
    requires { at + frame_length n ≤ length store.old }
    ensures { store.new ≡ check_laid store.old at number n }
{
    let to = at + ROW + n + filling(n);
    let check = digest(&store[chain_at(at, number)..to]);
    copy_into(store, to, &check);
}

// Writes a frame at place `at`, behind the check that stands there. A store short of it is told before a payload that is too long.
pub fn write_frame(
    store: &mut [u8],
    at: usize,
    head: Head,
    payload: &[u8],
) -> Result<usize, WriteError>
    ensures { writing result store.new ≡ frame_written store.old at head.number (content_in head payload.now) }
{
    let n = payload.len();
    if !has_room(store.len(), at, n) {
        return Err(WriteError::Short);
    }
    if LONGEST < n {
        return Err(WriteError::TooLong);
    }
    let number = head.number;
    write_rows(store, at, head, payload);
    write_check(store, at, number, n);
    Ok(LEAST + n + filling(n))
}

// ---- reading

// Judges frame `number` at place `at`, which is there whole and has `n` payload bytes, and returns `n`.
fn judge(log: &[u8], at: usize, number: u32, n: usize) -> Result<usize, NoFrame>
    requires { (at + frame_length n ≤ length log.now) × (n ≡ size_in (drop at log.now)) }
    ensures { result ≡ turn_for (frame_fault (before_at log.now at number) number (drop at log.now)) n }
{
    let from = at + ROW + n;
    let to = from + filling(n);
    let check = digest(&log[chain_at(at, number)..to]);
    if !is_same(&check, &log[to..to + ROW]) {
        return Err(NoFrame::Damaged);
    }
    if be32_at(log, at + 4) != number {
        return Err(NoFrame::Misplaced);
    }
    if !is_zero(&log[from..to]) {
        return Err(NoFrame::Malformed);
    }
    Ok(n)
}

// Reads what stands at place `at` of a log, if frame `number` is due there, and returns how many bytes its payload has.
pub fn read_frame(log: &[u8], at: usize, number: u32) -> Result<usize, NoFrame>
    ensures { result ≡ turn_at log.now at number }
{
    if log.len() <= at {
        return Err(NoFrame::End);
    }
    if log.len() - at < LEAST {
        return Err(NoFrame::Cut);
    }
    let n = be32_at(log, at + 8) as usize;
    if !has_room(log.len(), at, n) {
        return Err(NoFrame::Cut);
    }
    judge(log, at, number, n)
}
