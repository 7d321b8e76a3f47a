// Answers stored questions, a line each: a word and bytes in hexadecimal. What it writes is compared with the original's answers.
#![tactic(auto)]

use base::Short;
use digest::md5;
use lines::input::lines_of;
use lines::output::{pair, print};
use lines::word::{find, unhex};

// Puts a line of bytes in hexadecimal, or a dash if there are none.
fn put_line(rt: &impl Print, s: &[u8]) {
    if s.is_empty() {
        print(rt, b"-");
    }
    for b in s {
        print(rt, &pair(*b));
    }
    print(rt, b"\n");
}

// Puts a line of the text that was stored in `s`, or the refusal of a store that is too short.
fn put_text(rt: &impl Print, done: Result<usize, Short>, s: &[u8]) {
    match done {
        Ok(n) => put_line(rt, &s[..n.min(s.len())]),
        Err(Short) => print(rt, b"10\n"),
    }
}

// Answers a question whose word has the length `word`, by which md5, utf8, utf16 and encode16 differ.
fn answer(rt: &impl Print, word: usize, s: &[u8]) {
    let mut store = [0u8; 8192];
    match word {
        3 => put_line(rt, &md5::digest(s)),
        4 => {
            let done = text::decode_ascii(s, &mut store);
            put_text(rt, done, &store);
        }
        5 => {
            let done = text::decode_unicode(s, &mut store);
            put_text(rt, done, &store);
        }
        _ => {
            let done = text::encode_unicode(s, &mut store);
            put_text(rt, done, &store);
        }
    }
}

// Answers one line.
fn line(rt: &impl Print, s: &[u8], is_cut: bool) {
    if is_cut {
        return;
    }
    let gap = find(s, 0, b' ');
    if gap < s.len() {
        let mut bytes = [0u8; 2048];
        let n = unhex(&s[gap + 1..], &mut bytes);
        answer(rt, gap, &bytes[..n]);
    }
}

// Answers the lines of standard input. A line that is longer than the store has no answer.
fn main(rt: HostRuntime) {
    let mut input = [0u8; 65536];
    lines_of(
        &mut rt.stdin(),
        &mut input,
        |s, is_cut| line(&rt, s, is_cut),
    );
}
