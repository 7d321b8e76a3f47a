// Reading: what stands in a store of an input, what is kept of it, and its lines one after the other.
ghost use Rattle.std.specs.Prelude.{◌≡◌, true, ◌-◌, ◌<◌, ◌≤◌, length, Err, IfOk};
ghost use Rattle.lines.specs.declared.input.NoMore.TheVariants.{Full};
ghost use Rattle.lines.specs.Word.{filled};
ghost use Rattle.lines.specs.Input.{kept_front, before_first, has_cut, has_line, line_after, bytes_of};

use crate::output::least;
use crate::word::find;
use std::io;
use std::io::{ErrorKind, Read};

// A line of the input, as a place in the store that it was read into, or the reason why there is none.
#[derive(Clone, Copy)]
pub struct Line {
    // Where the line starts and where it ends, without its end of line.
    pub start: usize,
    pub end: usize,
    // Where the input behind the line starts and where it ends.
    pub next: usize,
    pub have: usize,
    // Whether there is a line. There is none before the first one, while the rest of one is still to be read, and after the last one.
    pub is_there: bool,
    // Whether the line is longer than the store, so that its start was dropped.
    pub is_cut: bool,
    // Whether the input has ended, so that no line follows.
    pub is_over: bool,
}

// Reads the input `from` once into `s`, and returns how many bytes came: none at the end, and none if the system cannot read. A program reads
// standard input by `rt.stdin()`.
pub fn read(from: &mut impl Read, s: &mut [u8]) -> usize
    ensures { result ≤ length s.new }
{
    match from.read(s) {
        Ok(n) => n,
        Err(_) => 0,
    }
}

// Reads the input `from` into `s` until that is full or nothing more comes, and returns how many bytes came.
pub fn read_full(from: &mut impl Read, s: &mut [u8]) -> usize
    ensures { result ≤ length s.new }
{
    let mut n = 0;
    // Stays a loop over a place: each read says itself how many bytes it passes.
    while n < s.len() {
        let k = read(from, &mut s[n..]);
        if k == 0 {
            return n;
        }
        n += k;
    }
    n
}

// Moves what stands from `from` up to `to` to the front of `s`, and returns how many bytes that are.
#[tactic(auto, unfolding(crate::specs::Input::kept_front))]
pub fn keep(s: &mut [u8], from: usize, to: usize) -> usize
    requires { (from ≤ to) × (to ≤ length s.old) }
    ensures within { result ≤ length s.new }
    ensures count { result ≡ to - from }
    ensures kept { filled s.new result ≡ kept_front s.old from to }
{
    s.copy_within(from..to, 0);
    to - from
}

// Why no more bytes came behind those that are kept.
#[derive(Clone, Copy, PartialEq, Eq)]
pub enum NoMore {
    // They fill the store.
    Full,
    // The input has ended, or the system cannot read it.
    End,
}

// Moves what stands from `from` up to `to` to the front of `s`, and reads on behind it once. Returns how many bytes stand there then.
pub fn read_behind(
    input: &mut impl Read,
    s: &mut [u8],
    from: usize,
    to: usize,
) -> Result<usize, NoMore>
    requires { (from ≤ to) × (to ≤ length s.old) }
    ensures more { IfOk result (λ n. (to - from < n) × (n ≤ length s.new)) }
    ensures full { to - from ≡ length s.old → result ≡ Err Full }
{
    let kept = keep(s, from, to);
    if kept == s.len() {
        return Err(NoMore::Full);
    }
    let n = read(input, &mut s[kept..]);
    if n == 0 {
        return Err(NoMore::End);
    }
    Ok(kept + n)
}

// Returns what stands before the first line.
pub fn before_first() -> Line
    ensures { result ≡ before_first }
{
    Line {
        start: 0,
        end: 0,
        next: 0,
        have: 0,
        is_there: false,
        is_cut: false,
        is_over: false,
    }
}

// Returns what the input ends with, if the first `have` bytes of the store are a line without an end of its own.
fn last_line(have: usize, is_cut: bool) -> Line
    ensures { (result.start ≤ result.end) × ((result.end ≤ result.next) × ((result.next ≤ result.have) × (result.have ≤ have))) }
{
    let is_line = 0 < have || is_cut;
    Line {
        start: 0,
        end: have,
        next: have,
        have,
        is_there: is_line,
        is_cut,
        is_over: !is_line,
    }
}

// Returns how many of `kept` bytes of a line stay in a store with `room` for them: none if they fill it.
fn unless_full(kept: usize, room: usize) -> usize
    ensures { result ≤ room }
{
    if kept < room { kept } else { 0 }
}

// Reads on behind the part of a line that stands from `from` up to `to`, which is moved to the front of `s` first. A line that fills the store
// has no room for its end, so what is there of it is dropped.
fn read_on(input: &mut impl Read, s: &mut [u8], from: usize, to: usize, was_cut: bool) -> Line
    requires { (from ≤ to) × (to ≤ length s.old) }
    ensures { (result.start ≤ result.end) × ((result.end ≤ result.next) × ((result.next ≤ result.have) × (result.have ≤ length s.new))) }
{
    let kept = keep(s, from, to);
    let have = unless_full(kept, s.len());
    let is_cut = was_cut || have < kept;
    let n = read(input, &mut s[have..]);
    if n == 0 {
        return last_line(have, is_cut);
    }
    Line {
        start: 0,
        end: 0,
        next: 0,
        have: have + n,
        is_there: false,
        is_cut,
        is_over: false,
    }
}

// Tells whether the start of the line that follows `before` was dropped.
fn has_cut(before: Line) -> bool
    ensures { result ≡ has_cut before }
{
    if before.is_there {
        return false;
    }
    before.is_cut
}

// Returns what follows `before` in the input that is read into `s`: the next line, if all of it is in the store, or else what was
// read of it. `lines_of` takes such steps until the input is over.
pub fn next_line(input: &mut impl Read, s: &mut [u8], before: Line) -> Line
    ensures bounds { (result.start ≤ result.end) × ((result.end ≤ result.next) × ((result.next ≤ result.have) × (result.have ≤ length s.new))) }
    ensures whole { has_line s.old before ≡ true
        → (result ≡ line_after s.old before) × (s.new ≡ s.old) }
{
    let have = least(before.have, s.len());
    let start = least(before.next, have);
    let is_cut = has_cut(before);
    let end = find(&s[0..have], start, b'\n');
    if end < have {
        return Line {
            start,
            end,
            next: end + 1,
            have,
            is_there: true,
            is_cut,
            is_over: false,
        };
    }
    read_on(input, s, start, have, is_cut)
}

// Returns the bytes of `line` in the store that it was read into.
pub fn bytes_of(s: &[u8], line: Line) -> &[u8]
    ensures within { length result.now ≤ length s.now }
    ensures bytes { result.now ≡ bytes_of s.now line }
{
    let end = least(line.end, s.len());
    let start = least(line.start, end);
    &s[start..end]
}

// Reads the lines of `input` into the store `s`, one after the other, and has `answer` answer each. It is told, too, whether the line is longer
// than the store, so that its start was dropped. Which lines come is the input's to say, so no clause speaks of what was answered; `next_line`
// says how each is cut out of the store. The steps are counted up to a number that no run uses up, since a proved loop has to end and nothing
// says that the input does.
pub fn lines_of<F: FnMut(&[u8], bool)>(input: &mut impl Read, s: &mut [u8], mut answer: F)
    requires { F.IsAlwaysCallable answer }
{
    let mut at = before_first();
    for _ in 0..u64::MAX {
        at = next_line(input, s, at);
        if at.is_over {
            return;
        }
        if at.is_there {
            answer(bytes_of(s, at), at.is_cut);
        }
    }
}

// How often a read is tried again that a signal has interrupted.
const TRIES: usize = 1000;

// Reads the input `from` once into `s`, and returns how many bytes came, or why none could be read. A process that is stopped and continued may
// find its read interrupted, which is no failure.
pub fn read_once(from: &mut impl Read, s: &mut [u8]) -> io::Result<usize>
    ensures { IfOk result (λ n. n ≤ length s.new) }
{
    for _ in 0..TRIES {
        match from.read(s) {
            Err(e) if e.kind() == ErrorKind::Interrupted => {}
            read => return read,
        }
    }
    from.read(s)
}
