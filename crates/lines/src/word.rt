// Words of a line: places, numbers, and bytes in hexadecimal.
ghost use Rattle.std.specs.Prelude.{◌≡◌, ◌≤◌, ◌<◌, ◌-◌, length, get_or};
ghost use Rattle.lines.specs.Word.{filled, first_from, place_after, piece_at, piece_of, line_feed, space, line_number, value_of, with_digit, number_of};
ghost use Rattle.lines.specs.Word.{copied_on, repeated, pushed, scanned, scanned_group, scanned_one, unhexed};

use base::wide;
use check::same;

// How far hexadecimal digits are read: their place, how many bytes they gave, and where the last group starts.
#[derive(Clone, Copy)]
struct Scan {
    at: usize,
    n: usize,
    unit: usize,
}

// Where a line stands in a text, without the end of the line.
#[derive(Clone, Copy)]
pub struct Place {
    pub start: usize,
    pub end: usize,
}

// Returns the first place of `byte` in `s` from `from` on, or the end of `s`.
pub fn find(s: &[u8], from: usize, byte: u8) -> usize
    requires { from ≤ length s.now }
    ensures bounds { (from ≤ result) × (result ≤ length s.now) }
    ensures place { result ≡ first_from s.now from byte }
{
    match s[from..].iter().position(|b| *b == byte) {
        Some(i) => from + i,
        None => s.len(),
    }
}

// Returns the place after `end`, or `end` if that is the end of `s`.
#[tactic(auto, unfolding(crate::specs::Word::place_after))]
pub fn after(s: &[u8], end: usize) -> usize
    requires { end ≤ length s.now }
    ensures bounds { (end ≤ result) × (result ≤ length s.now) }
    ensures place { result ≡ place_after s.now end }
{
    if end < s.len() { end + 1 } else { end }
}

// Returns where the piece with the number `k` stands in `text`, if `byte` stands between two pieces. They are counted from 0; if there are
// fewer, the place is empty.
pub fn piece_at(text: &[u8], k: usize, byte: u8) -> Place
    ensures bounds { (result.start ≤ result.end) × (result.end ≤ length text.now) }
    ensures place { result ≡ piece_at text.now k byte }
{
    let mut start = 0;
    for _ in 0..k {
        start = after(text, find(text, start, byte));
    }
    Place {
        start,
        end: find(text, start, byte),
    }
}

// Returns where the line with the number `k` stands in `text`. The lines are counted from 0; if there are fewer, the place is empty.
pub fn line_at(text: &[u8], k: usize) -> Place
    ensures bounds { (result.start ≤ result.end) × (result.end ≤ length text.now) }
    ensures place { result ≡ piece_at text.now k line_feed }
{
    piece_at(text, k, b'\n')
}

// Returns the word with the number `k` of a line. The words are counted from 0; if there are fewer, there are no bytes.
pub fn word_of(line: &[u8], k: usize) -> &[u8]
    ensures within { length result.now ≤ length line.now }
    ensures bytes { result.now ≡ piece_of line.now k space }
{
    let place = piece_at(line, k, b' ');
    let start = place.start;
    let end = place.end;
    &line[start..end]
}

// Returns the number of the line of `text` that is `w`, counted from 0, or the number of all the lines if none is. A word that names a case
// is looked up in one text, so that a function that tells the cases apart has a number to tell them by.
pub fn line_number(text: &[u8], w: &[u8]) -> usize
    ensures within { result ≤ length text.now }
    ensures number { result ≡ line_number text.now w.now }
{
    let mut at = 0;
    let mut k = 0;
    while at < text.len() {
        let end = find(text, at, b'\n');
        if same(&text[at..end], w) {
            return k;
        }
        at = end + 1;
        k += 1;
    }
    k
}

// Returns the byte at `at`, or 0 past the end.
pub fn byte_at(s: &[u8], at: usize) -> u8
    ensures { result ≡ get_or s.now at 0 }
{
    if at < s.len() { s[at] } else { 0 }
}

// Returns what the digit `c` stands for, or 0 for any other sign.
#[tactic(auto, unfolding(crate::specs::Word::value_of))]
pub fn value(c: u8) -> u8
    ensures small { result < 16 }
    ensures value { result ≡ value_of c }
{
    match c {
        b'0'..=b'9' => c - b'0',
        b'a'..=b'f' => c - b'a' + 10,
        _ => 0,
    }
}

// Returns `n` with the digit `c` behind it, up to the tenth digit.
#[tactic(auto, unfolding(crate::specs::Word::with_digit))]
fn more(n: usize, c: u8) -> usize
    requires { n < 20000000000 }
    ensures small { result < 20000000000 }
    ensures number { result ≡ with_digit n c }
{
    if 1000000000 <= n {
        return n;
    }
    n * 10 + wide(value(c))
}

// Returns the word `s` as a decimal number, as far as ten digits go.
pub fn number(s: &[u8]) -> usize
    ensures small { result < 20000000000 }
    ensures number { result ≡ number_of s.now }
{
    let mut n = 0;
    for c in s {
        n = more(n, *c);
    }
    n
}

// Copies what stands from `from` up to `to` to `at`, as far as there is room, and returns the place behind the copy.
fn again(out: &mut [u8], from: usize, to: usize, at: usize) -> usize
    ensures { filled out.new result ≡ copied_on (to - from) out.old from at }
{
    let mut n = at;
    // Stays a loop over an index: what is copied may be what was just written, and `copy_within` reads all before it writes.
    for i in from..to {
        if out.len() <= n || out.len() <= i {
            return n;
        }
        out[n] = out[i];
        n += 1;
    }
    n
}

// Repeats what stands from `from` up to `to`, so that it stands there `count` times as far as there is room, and returns where that ends.
fn repeat(out: &mut [u8], from: usize, to: usize, count: usize) -> usize
    ensures { filled out.new result ≡ repeated out.old from to count }
{
    if count == 0 {
        return from;
    }
    let mut n = to;
    for _ in 1..count {
        let next = again(out, from, to, n);
        if next == n {
            return n;
        }
        n = next;
    }
    n
}

// Stores the byte `b` at `n` if there is room, and returns how many bytes there are then.
#[tactic(auto, unfolding(crate::specs::Word::pushed))]
fn push(out: &mut [u8], n: usize, b: u8) -> usize
    ensures { filled out.new result ≡ pushed out.old n b }
{
    if n < out.len() {
        out[n] = b;
        return n + 1;
    }
    n
}

// Reads the count at the end of a group, and repeats the group's bytes as often as it says.
fn group(s: &[u8], p: Scan, out: &mut [u8]) -> Scan
    requires { p.at < length s.now }
    ensures bounds { (p.at < result.at) × (result.at ≤ length s.now) }
    ensures scanned { scanned result out.new ≡ scanned_group s.now p out.old }
{
    let start = p.at + 1;
    let end = find(s, start, b')');
    let n = repeat(out, p.unit, p.n, number(&s[start..end]));
    Scan {
        at: end,
        n,
        unit: n,
    }
}

// Reads two digits, or the count at the end of a group. A sign that is neither, such as a bracket, is passed over, and a group starts
// behind it.
#[tactic(auto, unfolding(crate::specs::Word::scanned_one))]
fn scan_one(s: &[u8], p: Scan, out: &mut [u8]) -> Scan
    requires { p.at < length s.now }
    ensures bounds { (p.at < result.at) × (result.at ≤ length s.now) }
    ensures scanned { scanned result out.new ≡ scanned_one s.now p out.old }
{
    let at = p.at;
    let c = s[at];
    if c == b'*' {
        return group(s, p, out);
    }
    if c < 48 || c == b':' {
        return Scan {
            at: at + 1,
            n: p.n,
            unit: p.n,
        };
    }
    let next = after(s, at + 1);
    let n = push(out, p.n, value(c) * 16 + value(byte_at(s, at + 1)));
    Scan {
        at: next,
        n,
        unit: p.unit,
    }
}

// Writes the bytes of a word in hexadecimal to `out`, and returns how many there are. The word has pairs of digits and groups (HEX*COUNT).
// A dash stands for no bytes.
pub fn unhex(s: &[u8], out: &mut [u8]) -> usize
    ensures within { result ≤ length out.new }
    ensures bytes { filled out.new result ≡ unhexed s.now out.old }
{
    let mut p = Scan {
        at: 0,
        n: 0,
        unit: 0,
    };
    // Stays a loop over a place: a step passes one sign, two digits, or a count with all its digits.
    while p.at < s.len() {
        p = scan_one(s, p, out);
    }
    if p.n <= out.len() { p.n } else { 0 }
}
