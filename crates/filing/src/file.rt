// The payload of the frame `file` (docs/ARCHIVE.md#the-log), which says that a record is to be filed, made and read.
ghost use Rattle.std.specs.Prelude.{◌≡◌, ◌++◌, ◌≤◌, length};
ghost use Rattle.base.specs.Bytes.{bytes32};
ghost use Rattle.packet.specs.AuthWrite.{given};
ghost use Rattle.filing.specs.FileFrame.{bytes_in, blocks_for, target_mark, file_row, right_mark, numbers_in, file_read};

use base::copy_into;
use digest::md5::digest;
use packet::header::be32_at;

// A record's number, and what is there of it.
#[derive(Clone, Copy)]
pub struct RecordMarks {
    pub number: u32,
    pub has_body: bool,
    pub has_target: bool,
}

// The numbers of a payload: the record's, the lengths of headers and body, the blocks of the body, and the byte in front of the Target, which is its
// length, or 255 if there is none.
#[derive(Clone, Copy)]
pub struct FileNumbers {
    pub number: u32,
    pub headers: u32,
    pub body: u32,
    pub blocks: u32,
    pub target: u8,
}

// The bytes of a payload without the Target, and the place of the Target's mark.
const ROW: usize = 49;

const MARK: usize = 48;

// The mark of a record without a Target.
const NO_TARGET: u8 = 255;

// The payload bytes of a block.
const BLOCK: usize = 490;

// Counts the bytes of a body that may be missing.
fn body_len(has_body: bool, body: &[u8]) -> usize
    ensures { result ≡ length (bytes_in (given has_body body.now)) }
{
    if has_body { body.len() } else { 0 }
}

// Counts the blocks of a body that may be missing: an empty one takes one.
fn block_count(has_body: bool, body: &[u8]) -> usize
    ensures { result ≡ blocks_for (given has_body body.now) }
{
    if !has_body {
        return 0;
    }
    let n = body.len();
    if n == 0 {
        return 1;
    }
    (n - 1) / BLOCK + 1
}

// Returns the byte in front of a Target that may be missing.
fn target_mark(has_target: bool, target: &[u8]) -> u8
    ensures { result ≡ target_mark (given has_target target.now) }
{
    if !has_target {
        return NO_TARGET;
    }
    (target.len() % 256) as u8
}

// Makes the first row of a payload.
fn number_row(number: u32, headers: usize, body: usize, blocks: usize) -> [u8; 16]
    ensures { result ≡ bytes32 number ++ (bytes32 headers ++ (bytes32 body ++ bytes32 blocks)) }
{
    [
        (number / 16777216 % 256) as u8,
        (number / 65536 % 256) as u8,
        (number / 256 % 256) as u8,
        (number % 256) as u8,
        (headers / 16777216 % 256) as u8,
        (headers / 65536 % 256) as u8,
        (headers / 256 % 256) as u8,
        (headers % 256) as u8,
        (body / 16777216 % 256) as u8,
        (body / 65536 % 256) as u8,
        (body / 256 % 256) as u8,
        (body % 256) as u8,
        (blocks / 16777216 % 256) as u8,
        (blocks / 65536 % 256) as u8,
        (blocks / 256 % 256) as u8,
        (blocks % 256) as u8,
    ]
}

// Makes the payload of a record that is to be filed, without the Target's bytes, which follow it.
pub fn file_row(marks: RecordMarks, headers: &[u8], body: &[u8], target: &[u8]) -> [u8; 49]
    ensures { result ≡ file_row marks headers.now body.now target.now }
{
    let n = body_len(marks.has_body, body);
    let numbers = number_row(
        marks.number,
        headers.len(),
        n,
        block_count(marks.has_body, body),
    );
    let first = digest(headers);
    let second = digest(&body[0..n]);
    let mut row = [target_mark(marks.has_target, target); 49];
    copy_into(&mut row, 0, &numbers);
    copy_into(&mut row, 16, &first);
    copy_into(&mut row, 32, &second);
    row
}

// Tells whether the mark `m` may stand in front of `n` bytes.
fn is_mark_right(m: u8, n: usize) -> bool
    ensures { result ≡ right_mark m n }
{
    if m == NO_TARGET {
        return n == 0;
    }
    m as usize == n
}

// Reads the numbers of a payload that has them.
fn numbers_in(payload: &[u8]) -> FileNumbers
    requires { 49 ≤ length payload.now }
    ensures { result ≡ numbers_in payload.now }
{
    FileNumbers {
        number: be32_at(payload, 0),
        headers: be32_at(payload, 4),
        body: be32_at(payload, 8),
        blocks: be32_at(payload, 12),
        target: payload[MARK],
    }
}

// Reads the numbers of the payload of the frame `file`: none if it is too short, or if the Target has another length than its mark says. The MD5
// of the headers stands at place 16, that of the body at 32, and the Target from 49 on.
pub fn read_file(payload: &[u8]) -> Option<FileNumbers>
    ensures { result ≡ file_read payload.now }
{
    if payload.len() < ROW {
        return None;
    }
    if !is_mark_right(payload[MARK], payload.len() - ROW) {
        return None;
    }
    Some(numbers_in(payload))
}
