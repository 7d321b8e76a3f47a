// What is done, in lines on standard error: the time, the client, eight digits of the session, and what happened.
use crate::clock;
use crate::record::{Handed, Outcome, filing_of, put_failure};
use crate::system::{EEXIST, EFBIG, EIO, ENOENT};
use calendar::time::write_time;
use digest::md5::octets;
use files::path::front;
use filing::names::session_name;
use filing::paths::SessionId;
use filing::plan::code_for;
use lines::arguments::argument;
use lines::output;
use lines::output::{print, put};
use packet::response::SUCCESS;
use std::env::Env;
use std::time::Clock;
use table::targets::{Target, is_named};

// How long a line may be.
const LINE: usize = 800;

// The byte in front of U+0080 to U+009F, and of U+00A0 to U+00BF, in UTF-8.
const CONTROLS: u8 = 194;

// Returns the sign by which a line shows the byte `b`, which stands behind `before`. A client names its files, and no control character of
// theirs goes to a terminal.
fn shown(before: u8, b: u8) -> u8 {
    if b < 32 {
        return b'?';
    }
    if b == 127 {
        return b'?';
    }
    if before == CONTROLS {
        if b < 160 {
            return b'?';
        }
    }
    b
}

fn put_text(out: &mut [u8], n: usize, s: &[u8]) -> usize {
    let mut at = n;
    let mut before = 0;
    let mut i = 0;
    while i < s.len() {
        let one = [shown(before, s[i])];
        at = output::put(out, at, &one);
        before = s[i];
        i += 1;
    }
    at
}

// Puts a name that came from elsewhere, or a hyphen if it is empty.
fn put_name(out: &mut [u8], n: usize, s: &[u8]) -> usize {
    if s.len() == 0 {
        return put(out, n, b"-");
    }
    put_text(out, n, s)
}

// Puts the client's address, as whoever started the program gave it, or a hyphen.
fn put_peer(rt: &impl Env, out: &mut [u8], n: usize) -> usize {
    let mut peer = [0u8; 64];
    let k = argument(rt, 2, &mut peer);
    put_name(out, n, &peer[..k])
}

// Puts the time.
fn put_time(rt: &impl Clock, out: &mut [u8], n: usize) -> usize {
    let mut time = [b'-'; 16];
    let _ = write_time(clock::now(rt), &mut time);
    put(out, n, &time)
}

// Puts the time and the client.
fn put_front(rt: &(impl Env + Clock), out: &mut [u8]) -> usize {
    let a = put_time(rt, out, 0);
    let b = put(out, a, b" ");
    let c = put_peer(rt, out, b);
    put(out, c, b" ")
}

// Puts what each line of a session begins with: the time, the client, and eight digits of the session's name.
fn put_head(rt: &(impl Env + Clock), out: &mut [u8], id: SessionId) -> usize {
    let a = put_front(rt, out);
    let b = output::put_u32(out, a, id.high);
    put(out, b, b" ")
}

// Writes a line that is collected up to its end.
fn write(err: &impl Print, out: &mut [u8], n: usize) {
    let k = put(out, n, b"\n");
    print(err, front(out, k));
}

// Linux's numbers of further errors that have a text here: there is no space, a file system can only be read, there is no permission, too many files
// are open, a call was interrupted, an operation is not permitted, what should be a folder is none, and a call would have to wait.
const ENOSPC: i32 = 28;

const EROFS: i32 = 30;

const EACCES: i32 = 13;

const EMFILE: i32 = 24;

const EINTR: i32 = 4;

const EPERM: i32 = 1;

const ENOTDIR: i32 = 20;

const EAGAIN: i32 = 11;

// Returns which line of the texts in `put_error` is that of an error.
fn line_of(error: i32) -> usize {
    match error {
        ENOSPC => 1,
        EIO => 2,
        EROFS => 3,
        EACCES => 4,
        ENOENT => 5,
        EEXIST => 6,
        EMFILE => 7,
        EINTR => 8,
        EFBIG => 9,
        EPERM => 10,
        ENOTDIR => 11,
        EAGAIN => 12,
        _ => 0,
    }
}

// Puts the text of an error.
pub(crate) fn put_error(out: &mut [u8], n: usize, error: i32) -> usize {
    let texts =
        b"error of the system\nno space left\ninput or output error\nread-only file system\npermission denied\n\
        no such file or folder\nfile exists\ntoo many open files\ninterrupted\ntoo large\nnot permitted\nnot a folder\n\
        nothing came in time\n";
    output::put_line_at(out, n, texts, line_of(error))
}

// Tells that a session begins.
pub(crate) fn opened(rt: &(impl Env + Clock), err: &impl Print, id: SessionId) {
    let mut out = [0u8; LINE];
    let a = put_head(rt, &mut out, id);
    let b = put(&mut out, a, b"open ");
    let name = session_name(id.clock, id.high, id.low);
    let n = put(&mut out, b, &name);
    write(err, &mut out, n);
}

// Tells that the session ends before it began: for want of random bits, because of a bad line of the settings, or because they cannot be read.
pub(crate) fn no_randomness(rt: &(impl Env + Clock), err: &impl Print, id: SessionId) {
    let mut out = [0u8; LINE];
    let a = put_head(rt, &mut out, id);
    let n = put(&mut out, a, b"end no randomness");
    write(err, &mut out, n);
}

pub(crate) fn bad_conf(rt: &(impl Env + Clock), err: &impl Print, line: usize) {
    let mut out = [0u8; LINE];
    let a = put_front(rt, &mut out);
    let b = put(&mut out, a, b"end conf ");
    let n = output::put_number(&mut out, b, line);
    write(err, &mut out, n);
}

pub(crate) fn no_conf(rt: &(impl Env + Clock), err: &impl Print, error: i32) {
    let mut out = [0u8; LINE];
    let a = put_front(rt, &mut out);
    let b = put(&mut out, a, b"end conf: ");
    let n = put_error(&mut out, b, error);
    write(err, &mut out, n);
}

// Tells with a word that something failed, and why.
fn failed(rt: &(impl Env + Clock), err: &impl Print, id: SessionId, what: &[u8], error: i32) {
    let mut out = [0u8; LINE];
    let a = put_head(rt, &mut out, id);
    let b = put(&mut out, a, what);
    let n = put_error(&mut out, b, error);
    write(err, &mut out, n);
}

// Tells that the log cannot be written, so that no record is filed any more.
pub(crate) fn no_log(rt: &(impl Env + Clock), err: &impl Print, id: SessionId, error: i32) {
    failed(rt, err, id, b"log: ", error);
}

// Tells that standard input could not be read, or standard output not be written.
pub(crate) fn no_input(rt: &(impl Env + Clock), err: &impl Print, id: SessionId, error: i32) {
    failed(rt, err, id, b"input: ", error);
}

pub(crate) fn no_output(rt: &(impl Env + Clock), err: &impl Print, id: SessionId, error: i32) {
    failed(rt, err, id, b"output: ", error);
}

// Tells that a file on passwords cannot be used.
pub(crate) fn no_checks(rt: &(impl Env + Clock), err: &impl Print, id: SessionId, error: i32) {
    failed(rt, err, id, b"checks: ", error);
}

// Tells how the session ended.
pub(crate) fn end(rt: &(impl Env + Clock), err: &impl Print, id: SessionId, number: u8) {
    let mut out = [0u8; LINE];
    let a = put_head(rt, &mut out, id);
    let b = put(&mut out, a, b"end ");
    let n = output::put_number(&mut out, b, base::wide(number));
    write(err, &mut out, n);
}

// Puts the name of a Target: its bytes in hexadecimal, a hyphen if it has none, `none` if there was none.
fn put_target(out: &mut [u8], n: usize, target: Target) -> usize {
    if !is_named(target) {
        return put(out, n, b"none");
    }
    if target.length == 0 {
        return put(out, n, b"-");
    }
    let bytes = octets(target.bytes);
    output::put_digits(out, n, front(&bytes, target.length))
}

// Puts how long a body is.
fn put_length(out: &mut [u8], n: usize, body: Option<usize>) -> usize {
    match body {
        Some(k) => output::put_number(out, n, k),
        None => put(out, n, b"none"),
    }
}

// Puts what became of a record.
fn put_outcome(out: &mut [u8], n: usize, o: Outcome) -> usize {
    let code = code_for(filing_of(o));
    if code == SUCCESS {
        return put(out, n, b" filed");
    }
    let a = put(out, n, b" not filed ");
    let b = output::put_byte(out, a, code);
    let c = put(out, b, b": ");
    put_failure(out, c, o)
}

// Tells of a record that was handed over, and how its filing came out.
pub(crate) fn filing(
    rt: &(impl Env + Clock),
    err: &impl Print,
    id: SessionId,
    r: Handed,
    o: Outcome,
) {
    let mut out = [0u8; LINE];
    let a = put_head(rt, &mut out, id);
    let b = put(&mut out, a, b"put ");
    let c = output::put_number(&mut out, b, r.number as usize);
    let d = put(&mut out, c, b" target ");
    let target = r.target;
    let e = put_target(&mut out, d, target);
    let f = put(&mut out, e, b" headers ");
    let g = output::put_number(&mut out, f, r.kept);
    let h = put(&mut out, g, b" body ");
    let body = r.body;
    let i = put_length(&mut out, h, body);
    let n = put_outcome(&mut out, i, o);
    write(err, &mut out, n);
}

// Tells that a file of the receiver's folder cannot be read.
pub(crate) fn unreadable(
    rt: &(impl Env + Clock),
    err: &impl Print,
    id: SessionId,
    file: &[u8],
    error: i32,
) {
    let mut out = [0u8; LINE];
    let a = put_head(rt, &mut out, id);
    let b = put(&mut out, a, file);
    let c = put(&mut out, b, b": ");
    let n = put_error(&mut out, c, error);
    write(err, &mut out, n);
}

// Tells that a rule file could not be read on.
pub(crate) fn unread(rt: &(impl Env + Clock), err: &impl Print, id: SessionId) {
    let mut out = [0u8; LINE];
    let a = put_head(rt, &mut out, id);
    let n = put(&mut out, a, b"get failed 50");
    write(err, &mut out, n);
}

// Tells of a Get that is answered with a file, and how long that is.
pub(crate) fn given(
    rt: &(impl Env + Clock),
    err: &impl Print,
    id: SessionId,
    path: &[u8],
    size: u32,
) {
    let mut out = [0u8; LINE];
    let a = put_head(rt, &mut out, id);
    let b = put(&mut out, a, b"get ");
    let c = put_name(&mut out, b, path);
    let d = put(&mut out, c, b" ");
    let e = output::put_number(&mut out, d, size as usize);
    let n = put(&mut out, e, b" bytes");
    write(err, &mut out, n);
}

// Tells of a Get that is refused.
pub(crate) fn not_given(
    rt: &(impl Env + Clock),
    err: &impl Print,
    id: SessionId,
    path: &[u8],
    code: u8,
) {
    let mut out = [0u8; LINE];
    let a = put_head(rt, &mut out, id);
    let b = put(&mut out, a, b"get ");
    let c = put_name(&mut out, b, path);
    let d = put(&mut out, c, b" refused ");
    let n = output::put_byte(&mut out, d, code);
    write(err, &mut out, n);
}

// Returns which line of the words in `checked` is that of a letter.
fn word_of(letter: u8) -> usize {
    match letter {
        b'r' => 1,
        b's' => 2,
        _ => 0,
    }
}

// Tells how a check of a user's password came out.
pub(crate) fn checked(
    rt: &(impl Env + Clock),
    err: &impl Print,
    id: SessionId,
    user: &[u8],
    letter: u8,
) {
    let mut out = [0u8; LINE];
    let a = put_head(rt, &mut out, id);
    let b = put(&mut out, a, b"password user ");
    let c = output::put_hex(&mut out, b, user, 256);
    let d = put(&mut out, c, b" ");
    let n = output::put_line_at(&mut out, d, b"wrong\nright\nstopped\n", word_of(letter));
    write(err, &mut out, n);
}
