// The payload of a frame, made of what a program has in hand of a call (docs/ARCHIVE.md#the-log): what was decided is a value, and bytes are lent in
// up to three parts, one behind the other.
ghost use Rattle.std.specs.Prelude.{◌≡◌, ◌+◌, ◌≤◌, [], ◌∷◌, ◌++◌, ◌&&◌, leb, eqb, length};
ghost use Rattle.archive.specs.Writing.{writing, front};
ghost use Rattle.base.specs.Bytes.{bytes16};
ghost use Rattle.journal.specs.Checks.{bit};
ghost use Rattle.filing.specs.Kinds.{check_pair};
ghost use Rattle.filing.specs.Contents.{event_kind, front_of, right_parts, content_written, filled_row};

use crate::frame::Kind;
use crate::payload::{CheckMade, OpenFlags, OpenNumbers, check_pair, open_row};
use archive::block::WriteError;
use base::copy_into;

// What is logged, and which parts it has.
#[derive(Clone, Copy)]
pub enum Event {
    // The session began. The parts are its name, the realm, and what is known of the client.
    Opened(OpenNumbers, OpenFlags),
    // A whole packet came; a packet broke off; a reply was sent. The parts are its bytes.
    Received,
    Broken,
    Replied,
    // The host answered with a reply of this code. The parts are its headers.
    Answered(u8),
    // The host answered a Get with an object that has a body or not. The parts are its headers and its path.
    Given(bool),
    // A password was checked. It has no parts.
    Checked(CheckMade),
    // A challenge was made. The part is its nonce.
    Challenged,
    // The host closed ids together. The parts are these ids, four bytes each.
    Closed,
    // A record is to be filed. The parts are the row of it (`file::file_row`) and its Target.
    Filing,
    // A step of a filing failed. The parts are a text.
    Failed,
    // The session ended with this number. It has no parts.
    Ended(u8),
}

// The length of a session's name, of a nonce, and of an id.
const NAME: usize = 33;

const NONCE: usize = 16;

const ID: usize = 4;

// The longest headers of an object.
const HEADERS: usize = 65535;

// The length of a record's row, and of the longest Target behind it.
const FILE_ROW: usize = 49;

const TARGET: usize = 254;

// Returns which frame an event has.
pub fn kind_of(event: Event) -> Kind
    ensures { result ≡ event_kind event }
{
    match event {
        Event::Opened(_, _) => Kind::Open,
        Event::Received => Kind::Recv,
        Event::Broken => Kind::Part,
        Event::Replied => Kind::Sent,
        Event::Answered(_) => Kind::Answ,
        Event::Given(_) => Kind::Objt,
        Event::Checked(_) => Kind::Pass,
        Event::Challenged => Kind::Nonc,
        Event::Closed => Kind::Clos,
        Event::Filing => Kind::File,
        Event::Failed => Kind::Fail,
        Event::Ended(_) => Kind::Done,
    }
}

// Counts the bytes that stand before the parts of an event.
fn front_len(event: Event) -> usize
    ensures value { result ≡ length (front_of event 0) }
    ensures small { result ≤ 16 }
{
    match event {
        Event::Opened(_, _) => 16,
        Event::Received => 0,
        Event::Broken => 0,
        Event::Replied => 0,
        Event::Answered(_) => 1,
        Event::Given(_) => 3,
        Event::Checked(_) => 2,
        Event::Challenged => 0,
        Event::Closed => 0,
        Event::Filing => 0,
        Event::Failed => 0,
        Event::Ended(_) => 1,
    }
}

// Makes a row of three bytes and zeros.
fn row_of(a: u8, b: u8, c: u8) -> [u8; 16]
    ensures { result ≡ filled_row (a ∷ b ∷ c ∷ []) }
{
    [a, b, c, 0, 0, 0, 0, 0, 0, 0, 0, 0, 0, 0, 0, 0]
}

// Makes a row of the payload of a check, and zeros.
fn check_row(check: CheckMade) -> [u8; 16]
    ensures { result ≡ filled_row (check_pair check) }
{
    let pair = check_pair(check);
    row_of(pair[0], pair[1], 0)
}

// Makes a row of what stands before the parts of an object, whose headers have `n` bytes, and zeros.
fn object_row(has_body: bool, n: u16) -> [u8; 16]
    ensures { result ≡ filled_row (bit has_body ∷ bytes16 n) }
{
    let high = (n / 256) as u8;
    let low = (n % 256) as u8;
    if has_body {
        return row_of(1, high, low);
    }
    row_of(0, high, low)
}

// Makes a row of what stands before the parts of an event, the first of which has `n` bytes, and zeros.
fn front_row(event: Event, n: u16) -> [u8; 16]
    ensures { result ≡ filled_row (front_of event n) }
{
    match event {
        Event::Opened(numbers, flags) => open_row(numbers, flags),
        Event::Received => row_of(0, 0, 0),
        Event::Broken => row_of(0, 0, 0),
        Event::Replied => row_of(0, 0, 0),
        Event::Answered(code) => row_of(code, 0, 0),
        Event::Given(has_body) => object_row(has_body, n),
        Event::Checked(check) => check_row(check),
        Event::Challenged => row_of(0, 0, 0),
        Event::Closed => row_of(0, 0, 0),
        Event::Filing => row_of(0, 0, 0),
        Event::Failed => row_of(0, 0, 0),
        Event::Ended(number) => row_of(number, 0, 0),
    }
}

// Tells whether a session's name has `m` bytes and its realm `n`.
fn is_opening(numbers: OpenNumbers, m: usize, n: usize) -> bool
    ensures { result ≡ (eqb m 33 && eqb n numbers.realm) }
{
    if m != NAME {
        return false;
    }
    n == numbers.realm as usize
}

// Tells whether a record's row has `m` bytes and its Target `n`.
fn is_filing(m: usize, n: usize) -> bool
    ensures { result ≡ (eqb m 49 && leb n 254) }
{
    if m != FILE_ROW {
        return false;
    }
    n <= TARGET
}

// Tells whether an event may have a first part of `m` bytes and a second of `n`.
fn are_parts_right(event: Event, m: usize, n: usize) -> bool
    ensures { result ≡ right_parts event m n }
{
    match event {
        Event::Opened(numbers, _) => is_opening(numbers, m, n),
        Event::Received => true,
        Event::Broken => true,
        Event::Replied => true,
        Event::Answered(_) => true,
        Event::Given(_) => m <= HEADERS,
        Event::Checked(_) => true,
        Event::Challenged => m == NONCE,
        Event::Closed => m % ID == 0,
        Event::Filing => is_filing(m, n),
        Event::Failed => true,
        Event::Ended(_) => true,
    }
}

// Tells whether parts of these lengths fit into `total` bytes.
fn has_room(total: usize, row: usize, first: usize, second: usize, third: usize) -> bool
    ensures { result ≡ leb (row + (first + (second + third))) total }
{
    if total < row {
        return false;
    }
    let behind = total - row;
    if behind < first {
        return false;
    }
    let left = behind - first;
    if left < second {
        return false;
    }
    third <= left - second
}

// Lays four parts one behind the other at the front of `store`.
fn lay(store: &mut [u8], row: &[u8], first: &[u8], second: &[u8], third: &[u8])
    requires { length row.now + (length first.now + (length second.now + length third.now)) ≤ length store.old }
    ensures { store.new
        ≡ front (row.now ++ (first.now ++ (second.now ++ third.now))) store.old }
{
    let a = row.len();
    let b = a + first.len();
    copy_into(store, 0, row);
    copy_into(store, a, first);
    copy_into(store, b, second);
    copy_into(store, b + second.len(), third);
}

// Writes the payload of an event to the front of `store`, and returns its length. A store short of it is told before parts that do not fit the event.
pub fn content_for(
    store: &mut [u8],
    event: Event,
    first: &[u8],
    second: &[u8],
    third: &[u8],
) -> Result<usize, WriteError>
    ensures { writing result store.new
        ≡ content_written store.old event first.now second.now third.now }
{
    let n = front_len(event);
    let m = first.len();
    if !has_room(store.len(), n, m, second.len(), third.len()) {
        return Err(WriteError::Short);
    }
    if !are_parts_right(event, m, second.len()) {
        return Err(WriteError::TooLong);
    }
    let row = front_row(event, (m % 65536) as u16);
    lay(store, &row[0..n], first, second, third);
    Ok(n + m + second.len() + third.len())
}
