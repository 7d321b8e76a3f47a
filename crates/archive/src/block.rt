// A record's body as blocks of 512 bytes for the archive, each with its own check, and back (request (a); docs/ARCHIVE.md). A record
// without body is not blocked: whoever has none does not call `write`, and an empty body, which is another thing, takes one block. The
// check is MD5, as the request names it: it finds damage, and does not show that nobody made it anew.
ghost use Rattle.std.specs.Prelude.{◌≡◌, ◌+◌, ◌-◌, ◌*◌, ◌/◌, ◌^◌, ◌≤◌, min, length};
ghost use Rattle.std.proofs.Math.Seq.{paste};
ghost use Rattle.archive.specs.Block.{length_field, head_of, checked, block, same, right_check, is_last_block, used, right_length, all_zero, right_form, fault_of, longest};
ghost use Rattle.archive.specs.Writing.{block_count, blocks_of, front, wrote_number, written, writing};
ghost use Rattle.archive.specs.Reading.{fault_for, fault_in, sound_in, body_of, body_in, error_number, body_number, reading, read_into};

use base::{be16_at, copy_into, wide};
use digest::md5::digest;

// Why `write` refuses.
#[derive(Clone, Copy, PartialEq, Eq)]
pub enum WriteError {
    // The target is shorter than the blocks.
    Short,
    // The body is longer than 4,294,967,295 bytes.
    TooLong,
}

// Why `read` refuses.
#[derive(Clone, Copy, PartialEq, Eq)]
pub enum BodyError {
    // The target is shorter than 490 bytes for each whole block.
    Short,
    // The check of a block is wrong.
    Damaged,
    // The number of a block is not the next.
    Misplaced,
    // A length, a padding or an end mark breaks the rules.
    Malformed,
}

impl BodyError {
    // Returns the number of a refusal.
    // Stays a number for each: `archive_read` answers C by them, and a line of an audit tells them (docs/AUDIT.md).
    pub fn number(self) -> u8
        ensures { result ≡ error_number self }
    {
        match self {
            BodyError::Short => 10,
            BodyError::Damaged => 11,
            BodyError::Misplaced => 12,
            BodyError::Malformed => 13,
        }
    }
}

// Returns the number of an answer of `write`.
// Stays a number for each: `archive_write` answers C by them.
pub fn wrote_number(answer: Result<usize, WriteError>) -> usize
    ensures { result ≡ wrote_number answer }
{
    match answer {
        Ok(_) => 0,
        Err(WriteError::Short) => 10,
        Err(WriteError::TooLong) => 13,
    }
}

// Returns the number of an answer of `read`.
pub fn body_number(answer: Result<usize, BodyError>) -> usize
    ensures { result ≡ body_number answer }
{
    match answer {
        Ok(_) => 0,
        Err(error) => wide(error.number()),
    }
}

// The bytes of a block.
const BLOCK: usize = 512;

// The bytes of a head: the length field and the number.
const HEAD: usize = 6;

// The payload bytes of a block.
const PAYLOAD: usize = 490;

// The bytes that a check is of: the head and the payload.
const CHECKED: usize = 496;

// The top bit of a length field, which marks the last block.
const LAST: usize = 32768;

// The longest body.
const LONGEST: usize = 4294967295;

// ---- writing

// Counts the blocks of a body of `n` bytes: an empty body takes one.
fn block_count(n: usize) -> usize
    ensures { result ≡ block_count n }
{
    if n == 0 { 1 } else { (n - 1) / PAYLOAD + 1 }
}

// Counts the bytes that `write` takes for a body of `n` bytes, or returns the largest number if there are more. Whoever lends the target
// asks this.
pub fn blocks_len(n: usize) -> usize
    ensures { result ≡ min (512 * block_count n) (2 ^ 64 - 1) }
{
    let count = block_count(n);
    if usize::MAX / BLOCK < count {
        return usize::MAX;
    }
    BLOCK * count
}

// Returns the length field of a block with `n` payload bytes.
fn length_field(is_last: bool, n: usize) -> usize
    requires { n ≤ 490 }
    ensures { result ≡ length_field is_last n }
{
    if is_last { LAST + n } else { n }
}

// Makes the head of block `k` with `n` payload bytes: the length field and the block's number, the high-order byte of each first.
fn head(is_last: bool, k: usize, n: usize) -> [u8; 6]
    requires { n ≤ 490 }
    ensures { result ≡ head_of is_last k n }
{
    let field = length_field(is_last, n);
    [
        (field / 256) as u8,
        (field % 256) as u8,
        (k / 16777216 % 256) as u8,
        (k / 65536 % 256) as u8,
        (k / 256 % 256) as u8,
        (k % 256) as u8,
    ]
}

// Makes what the check of block `k` is of: the head, the payload, and zeros up to 490 payload bytes.
fn checked_part(is_last: bool, k: usize, payload: &[u8]) -> [u8; 496]
    requires { length payload.now ≤ 490 }
    ensures { result ≡ checked is_last k payload.now }
{
    let head = head(is_last, k, payload.len());
    let mut part = [0u8; 496];
    copy_into(&mut part, 0, &head);
    copy_into(&mut part, HEAD, payload);
    part
}

// Writes block `k` at its place.
fn write_block(blocks: &mut [u8], is_last: bool, k: usize, payload: &[u8])
    requires { (length payload.now ≤ 490) × (512 * k + 512 ≤ length blocks.old) }
    ensures { blocks.new ≡ paste blocks.old (512 * k) (block is_last k payload.now) 512 }
{
    let part = checked_part(is_last, k, payload);
    let check = digest(&part);
    let at = BLOCK * k;
    copy_into(blocks, at, &part);
    copy_into(blocks, at + CHECKED, &check);
}

// Writes the `count` blocks of `body`: full ones, and then the last.
fn write_blocks(body: &[u8], blocks: &mut [u8], count: usize)
    requires { (count ≡ block_count (length body.now)) × (512 * count ≤ length blocks.old) }
    ensures { blocks.new ≡ front (blocks_of body.now) blocks.old }
{
    let last = count - 1;
    for k in 0..last {
        let from = PAYLOAD * k;
        write_block(blocks, false, k, &body[from..from + PAYLOAD]);
    }
    write_block(blocks, true, last, &body[PAYLOAD * last..]);
}

// Writes the blocks of `body` at the front of `blocks`. A target short of them all is told before a body that is too long.
pub fn write(body: &[u8], blocks: &mut [u8]) -> Result<usize, WriteError>
    ensures { writing result blocks.new ≡ written body.now blocks.old }
{
    let count = block_count(body.len());
    if blocks.len() / BLOCK < count {
        return Err(WriteError::Short);
    }
    if LONGEST < body.len() {
        return Err(WriteError::TooLong);
    }
    write_blocks(body, blocks, count);
    Ok(BLOCK * count)
}

// ---- one block

// Tells whether `a` and `b` are the same bytes.
pub fn is_same(a: &[u8], b: &[u8]) -> bool
    requires { length a.now ≡ length b.now }
    ensures { result ≡ same a.now b.now }
{
    a == b
}

// Tells whether all bytes of `s` are zero.
pub fn is_zero(s: &[u8]) -> bool
    ensures { result ≡ all_zero s.now }
{
    s.iter().all(|b| *b == 0)
}

// Tells whether the length field of a block marks it as the last.
fn is_last_block(block: &[u8]) -> bool
    requires { 512 ≤ length block.now }
    ensures { result ≡ is_last_block block.now }
{
    LAST <= be16_at(block, 0)
}

// Returns how many payload bytes of a block its length field says are used.
fn used_in(block: &[u8]) -> usize
    requires { 512 ≤ length block.now }
    ensures { result ≡ used block.now }
{
    be16_at(block, 0) % LAST
}

// Tells whether block `k` may have this length field: every block but the last carries 490 bytes, and a last block of length 0 occurs only
// as block 0.
#[tactic(auto, unfolding(crate::specs::Block::right_length))]
fn is_length_right(k: usize, is_last: bool, used: usize) -> bool
    ensures { result ≡ right_length k is_last used }
{
    if !is_last {
        return used == PAYLOAD;
    }
    used <= PAYLOAD && (0 < used || k == 0)
}

// Tells whether the check of a block is right.
fn is_check_right(block: &[u8]) -> bool
    requires { length block.now ≡ 512 }
    ensures { result ≡ right_check block.now }
{
    let check = digest(&block[..CHECKED]);
    is_same(&check, &block[CHECKED..])
}

// Tells whether length, padding and end mark of block `k` keep the rules, behind blocks that hold `before` body bytes. If `is_ended`, one
// of them was the last, and no block may follow.
fn is_form_right(block: &[u8], k: usize, is_ended: bool, before: usize) -> bool
    requires { (length block.now ≡ 512) × (before ≤ longest) }
    ensures { result ≡ right_form k is_ended before block.now }
{
    if is_ended {
        return false;
    }
    let used = used_in(block);
    if !is_length_right(k, is_last_block(block), used) {
        return false;
    }
    if !is_zero(&block[HEAD + used..CHECKED]) {
        return false;
    }
    used <= LONGEST - before
}

// Returns the fault of block `k`, if it has one: that with the lowest number of those that fit the block.
#[tactic(auto, unfolding(crate::specs::Block::fault_of, crate::specs::Reading::fault_for, crate::specs::Reading::refused_for))]
fn fault_of(block: &[u8], k: usize, is_ended: bool, before: usize) -> Option<BodyError>
    requires { (length block.now ≡ 512) × (before ≤ longest) }
    ensures { result ≡ fault_for (fault_of k is_ended before block.now) }
{
    if !is_check_right(block) {
        return Some(BodyError::Damaged);
    }
    if be16_at(block, 2) * 65536 + be16_at(block, 4) != k {
        return Some(BodyError::Misplaced);
    }
    if !is_form_right(block, k, is_ended, before) {
        return Some(BodyError::Malformed);
    }
    None
}

// ---- reading

// What the blocks are found to be: how many stand before the first faulty one, and the length of the body, or the fault.
#[derive(Clone, Copy)]
pub struct Judgement {
    pub sound: usize,
    pub body: Result<usize, BodyError>,
}

// Judges the blocks one after the other, and then whether bytes are left over and whether the last block came. The first faulty block
// decides.
pub fn judge(blocks: &[u8]) -> Judgement
    ensures fault { body_number result.body ≡ fault_in blocks.now }
    ensures sound { result.sound ≡ sound_in blocks.now }
    ensures body { result.body ≡ body_in blocks.now }
{
    let count = blocks.len() / BLOCK;
    let mut is_ended = false;
    let mut total = 0;
    for k in 0..count {
        let block = &blocks[BLOCK * k..BLOCK * k + BLOCK];
        if let Some(error) = fault_of(block, k, is_ended, total) {
            return Judgement {
                sound: k,
                body: Err(error),
            };
        }
        is_ended = is_last_block(block);
        total += used_in(block);
    }
    if blocks.len() % BLOCK != 0 || !is_ended {
        return Judgement {
            sound: count,
            body: Err(BodyError::Malformed),
        };
    }
    Judgement {
        sound: count,
        body: Ok(total),
    }
}

// Copies the body out of blocks that were judged sound.
fn copy_body(blocks: &[u8], body: &mut [u8])
    requires { (fault_in blocks.now ≡ 0) × (490 * (length blocks.now / 512) ≤ length body.old) }
    ensures { body.new ≡ front (body_of blocks.now) body.old }
{
    let count = blocks.len() / BLOCK;
    let mut to = 0;
    for k in 0..count {
        let block = &blocks[BLOCK * k..BLOCK * k + BLOCK];
        let used = used_in(block);
        copy_into(body, to, &block[HEAD..HEAD + used]);
        to += used;
    }
}

// Reads the body of `blocks` to the front of `body`. There are two passes, since blocks with a fault leave the target as it was: all are
// judged before a byte is copied.
pub fn read(blocks: &[u8], body: &mut [u8]) -> Result<usize, BodyError>
    ensures { reading result body.new ≡ read_into blocks.now body.old }
{
    if body.len() / PAYLOAD < blocks.len() / BLOCK {
        return Err(BodyError::Short);
    }
    let judgement = judge(blocks);
    let total = judgement.body?;
    copy_body(blocks, body);
    Ok(total)
}
