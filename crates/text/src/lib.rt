// The text of headers (docs/PROTOCOL.md#text; the source's header.rs): UTF-16 and UTF-8 are taken apart into scalar values and written into
// a lent store in the other form.
#![tactic(auto)]

ghost use Rattle.std.specs.Prelude.{◌≡◌, ◌+◌, ◌-◌, ◌<◌, ◌≤◌, ◌^◌, min, length, get_or, drop};
ghost use Rattle.std.proofs.lemmas.List.Edits.{sets};
ghost use Rattle.text.specs.Unicode.{up_to_zero_of, keeps, replaces, units, is_pair, first16, need, low, high, inside, first8, utf8, utf16, whole, well_formed16, well_formed8};
ghost use Rattle.text.specs.Text.{pieces_of, encoded, recoded, unicode_text, ascii_text, unicode_bytes, stored, store_text};
ghost use Rattle.text.specs.Pieces.{Reads};

use base::{Short, copy_into};

// How text is laid out in bytes. UTF-16 has the high-order byte of a unit first and ends before a zero unit.
// Stays an enum: the definitions of specs/Text are over it by cases, and a trait would compile each loop three times.
#[derive(Clone, Copy)]
enum Form {
    Utf8,
    Utf16,
}

// A scalar value that was read: its `code`, how many bytes it was read from, and whether these were well-formed. If they were not, the code
// is U+FFFD.
#[derive(Clone, Copy)]
struct Piece {
    code: u32,
    size: usize,
    kept: bool,
}

// ---- reading

// Returns the byte at `i`, or 0 past the end.
fn byte_at(s: &[u8], i: usize) -> u32
    ensures { (result ≡ get_or s.now i 0) × (result < 256) }
{
    match s.get(i) {
        Some(b) => u32::from(*b),
        None => 0,
    }
}

// Returns the UTF-16 unit at `at`, or 0 past the last whole unit: an odd last byte is dropped.
fn unit_at(s: &[u8], at: usize) -> u32
    ensures { (result ≡ get_or (units (drop at s.now)) 0 0) × (result < 65536) }
{
    if s.len() < 2 || s.len() - 2 < at {
        return 0;
    }
    u32::from(u16::from_be_bytes([s[at], s[at + 1]]))
}

// Tells whether `u` is a high surrogate and `v` a low one.
#[tactic(auto, unfolding(crate::specs::Unicode::is_pair))]
fn is_pair(u: u32, v: u32) -> bool
    ensures { result ≡ is_pair u v }
{
    0xD800 <= u && u < 0xDC00 && 0xDC00 <= v && v < 0xE000
}

// Makes the piece of the scalar value `code`, which `size` well-formed bytes say.
fn kept(code: u32, size: usize) -> Piece
    ensures { result ≡ keeps code size }
{
    Piece {
        code,
        size,
        kept: true,
    }
}

// Makes the piece U+FFFD, which stands for `size` ill-formed bytes.
fn replaced(size: usize) -> Piece
    ensures { result ≡ replaces size }
{
    Piece {
        code: 0xFFFD,
        size,
        kept: false,
    }
}

// Reads the scalar value that the unit `u` starts, if the unit `v` follows.
fn first16(u: u32, v: u32) -> Piece
    ensures { result ≡ first16 u v }
{
    if is_pair(u, v) {
        return kept(0x10000 + (u - 0xD800) * 0x400 + (v - 0xDC00), 4);
    }
    match u {
        0xD800..=0xDFFF => replaced(2),
        _ => kept(u, 2),
    }
}

// Returns how many bytes a UTF-8 sequence has by its first byte `b`, or 0 if no sequence starts with `b`.
#[tactic(auto, unfolding(crate::specs::Unicode::need))]
fn needed(b: u32) -> u32
    ensures { result ≡ need b }
{
    match b {
        0..=0x7F => 1,
        0xC2..=0xDF => 2,
        0xE0..=0xEF => 3,
        0xF0..=0xF4 => 4,
        _ => 0,
    }
}

// Returns the smallest second byte that may follow the first byte `b`.
#[tactic(auto, unfolding(crate::specs::Unicode::low))]
fn lowest(b: u32) -> u32
    ensures { result ≡ low b }
{
    match b {
        0xE0 => 0xA0,
        0xF0 => 0x90,
        _ => 0x80,
    }
}

// Returns the largest second byte that may follow the first byte `b`.
#[tactic(auto, unfolding(crate::specs::Unicode::high))]
fn highest(b: u32) -> u32
    ensures { result ≡ high b }
{
    match b {
        0xED => 0x9F,
        0xF4 => 0x8F,
        _ => 0xBF,
    }
}

// Tells whether `x` lies between `lo` and `hi`.
#[tactic(auto, unfolding(crate::specs::Unicode::inside))]
fn is_inside(lo: u32, hi: u32, x: u32) -> bool
    ensures { result ≡ inside lo hi x }
{
    lo <= x && x <= hi
}

// Reads the scalar value that the bytes `b`, `c`, `d`, `e` start, or replaces the longest part of a sequence that they start (Unicode,
// D93b), as the source's `String::from_utf8_lossy` does.
fn first8(b: u32, c: u32, d: u32, e: u32) -> Piece
    ensures { result ≡ first8 b c d e }
{
    let n = needed(b);
    if n == 0 {
        return replaced(1);
    }
    if n == 1 {
        return kept(b, 1);
    }
    if !is_inside(lowest(b), highest(b), c) {
        return replaced(1);
    }
    if n == 2 {
        return kept(b % 0x20 * 0x40 + c % 0x40, 2);
    }
    if !is_inside(0x80, 0xBF, d) {
        return replaced(2);
    }
    if n == 3 {
        return kept(b % 0x10 * 0x1000 + c % 0x40 * 0x40 + d % 0x40, 3);
    }
    if !is_inside(0x80, 0xBF, e) {
        return replaced(3);
    }
    kept(
        b % 0x08 * 0x40000 + c % 0x40 * 0x1000 + d % 0x40 * 0x40 + e % 0x40,
        4,
    )
}

// Reads the next scalar value of UTF-16 at `at`, if the text has not ended there.
fn next16(s: &[u8], at: usize) -> Option<Piece>
    ensures { Reads Form.Utf16 s.now at result }
{
    let u = unit_at(s, at);
    if u == 0 {
        return None;
    }
    Some(first16(u, unit_at(s, at + 2)))
}

// Reads the next scalar value of UTF-8 at `at`, if the text has not ended there.
fn next8(s: &[u8], at: usize) -> Option<Piece>
    ensures { Reads Form.Utf8 s.now at result }
{
    if s.len() <= at {
        return None;
    }
    Some(first8(
        byte_at(s, at),
        byte_at(s, at + 1),
        byte_at(s, at + 2),
        byte_at(s, at + 3),
    ))
}

// Reads the next scalar value at `at`, in the given form, if the text has not ended there.
fn next_piece(s: &[u8], at: usize, form: Form) -> Option<Piece>
    ensures { Reads form s.now at result }
{
    match form {
        Form::Utf8 => next8(s, at),
        Form::Utf16 => next16(s, at),
    }
}

// Counts the bytes before the first zero: the source takes a missing terminator for the end.
fn zero_at(s: &[u8]) -> usize
    ensures { result ≡ length (up_to_zero_of s.now) }
{
    s.iter().position(|b| *b == 0).unwrap_or(s.len())
}

// ---- writing

// Returns how many bytes UTF-8 takes for the scalar value `c`.
#[tactic(auto, unfolding(crate::specs::Unicode::utf8))]
fn width8(c: u32) -> usize
    ensures { (result ≡ length (utf8 c)) × (result ≤ 4) }
{
    match c {
        0..=0x7F => 1,
        0x80..=0x7FF => 2,
        0x800..=0xFFFF => 3,
        _ => 4,
    }
}

// Returns how many bytes UTF-16 takes for the scalar value `c`.
fn width16(c: u32) -> usize
    ensures { (result ≡ length (utf16 c)) × (result ≤ 4) }
{
    if c < 0x10000 { 2 } else { 4 }
}

// Returns how many bytes the scalar value `c` takes in the given form.
fn width(c: u32, form: Form) -> usize
    ensures { (result ≡ length (encoded form c)) × (result ≤ 4) }
{
    match form {
        Form::Utf8 => width8(c),
        Form::Utf16 => width16(c),
    }
}

// Stores `bytes` from `n` on, and returns the place behind them.
#[tactic(auto, using(crate::proofs::TextRoom::paste_sets))]
fn put_bytes(d: &mut [u8], n: usize, bytes: &[u8]) -> usize
    requires { n + length bytes.now ≤ length d.old }
    ensures { (result ≡ n + length bytes.now) × (d.new ≡ sets d.old n bytes.now) }
{
    copy_into(d, n, bytes);
    n + bytes.len()
}

// Stores the scalar value `c` in UTF-8 from `n` on, and returns the place behind it.
#[tactic(auto, unfolding(crate::specs::Unicode::utf8))]
fn put8(d: &mut [u8], n: usize, c: u32) -> usize
    requires { (n + length (utf8 c) ≤ length d.old) × (c < 0x110000) }
    ensures { (result ≡ n + length (utf8 c)) × (d.new ≡ sets d.old n (utf8 c)) }
{
    let last = (0x80 + c % 0x40) as u8;
    let before_last = (0x80 + c / 0x40 % 0x40) as u8;
    match c {
        0..=0x7F => put_bytes(d, n, &[c as u8]),
        0x80..=0x7FF => put_bytes(d, n, &[(0xC0 + c / 0x40) as u8, last]),
        0x800..=0xFFFF => put_bytes(d, n, &[(0xE0 + c / 0x1000) as u8, before_last, last]),
        _ => {
            let second = (0x80 + c / 0x1000 % 0x40) as u8;
            put_bytes(
                d,
                n,
                &[(0xF0 + c / 0x40000) as u8, second, before_last, last],
            )
        }
    }
}

// Stores the scalar value `c` in UTF-16 from `n` on, and returns the place behind it.
#[tactic(auto, unfolding(crate::specs::Unicode::utf16))]
fn put16(d: &mut [u8], n: usize, c: u32) -> usize
    requires { (n + length (utf16 c) ≤ length d.old) × (c < 0x110000) }
    ensures { (result ≡ n + length (utf16 c)) × (d.new ≡ sets d.old n (utf16 c)) }
{
    if c < 0x10000 {
        return put_bytes(d, n, &[(c / 0x100) as u8, (c % 0x100) as u8]);
    }
    let u = 0xD800 + (c - 0x10000) / 0x400;
    let v = 0xDC00 + (c - 0x10000) % 0x400;
    put_bytes(
        d,
        n,
        &[
            (u / 0x100) as u8,
            (u % 0x100) as u8,
            (v / 0x100) as u8,
            (v % 0x100) as u8,
        ],
    )
}

// Stores the scalar value `c` in the given form from `n` on, and returns the place behind it.
fn put(d: &mut [u8], n: usize, c: u32, form: Form) -> usize
    requires { (n + length (encoded form c) ≤ length d.old) × (c < 0x110000) }
    ensures { (result ≡ n + length (encoded form c)) × (d.new ≡ sets d.old n (encoded form c)) }
{
    match form {
        Form::Utf8 => put8(d, n, c),
        Form::Utf16 => put16(d, n, c),
    }
}

// Counts the bytes that the text `s` takes in the form `to`, or returns the largest number if there are more.
fn text_len(s: &[u8], from: Form, to: Form) -> usize
    ensures { result ≡ min (length (recoded from to s.now)) (2 ^ 64 - 1) }
{
    let mut at = 0;
    let mut n: usize = 0;
    // Stays `while let`, here and below: an iterator over pieces would need a state and laws of its own in place of `at`.
    while let Some(p) = next_piece(s, at, from) {
        n = n.saturating_add(width(p.code, to));
        at += p.size;
    }
    n
}

// Stores the text `s` in the form `to` at the front of `d`, which holds it, and returns its length.
fn write_text(s: &[u8], from: Form, to: Form, d: &mut [u8]) -> usize
    requires { length (recoded from to s.now) ≤ length d.old }
    ensures { stored (Ok result) d.new ≡ store_text (recoded from to s.now) d.old }
{
    let mut at = 0;
    let mut n = 0;
    while let Some(p) = next_piece(s, at, from) {
        n = put(d, n, p.code, to);
        at += p.size;
    }
    n
}

// Stores the text `s` in the form `to` at the front of `d`, and returns its length; nothing at all is stored if `d` is too short.
fn recode(s: &[u8], from: Form, to: Form, d: &mut [u8]) -> Result<usize, Short>
    ensures { stored result d.new ≡ store_text (recoded from to s.now) d.old }
{
    if d.len() < text_len(s, from, to) {
        return Err(Short);
    }
    Ok(write_text(s, from, to, d))
}

// ---- the text of headers

// Counts the bytes that the UTF-16 text of a header takes in UTF-8.
pub fn unicode_len(payload: &[u8]) -> usize
    ensures { result ≡ length (unicode_text payload.now) }
{
    text_len(payload, Form::Utf16, Form::Utf8)
}

// Stores the UTF-16 text of a header in UTF-8 (the source's decode_unicode): up to the first zero unit, and each unpaired surrogate as
// U+FFFD.
pub fn decode_unicode(payload: &[u8], store: &mut [u8]) -> Result<usize, Short>
    ensures { stored result store.new ≡ store_text (unicode_text payload.now) store.old }
{
    recode(payload, Form::Utf16, Form::Utf8, store)
}

// Counts the bytes that the text of Type or Time takes, or returns the largest number if there are more.
pub fn ascii_len(payload: &[u8]) -> usize
    ensures { result ≡ min (length (ascii_text payload.now)) (2 ^ 64 - 1) }
{
    let end = zero_at(payload);
    text_len(&payload[..end], Form::Utf8, Form::Utf8)
}

// Stores the text of Type or Time (the source's decode_ascii): up to the first zero byte, and what is ill-formed as U+FFFD.
pub fn decode_ascii(payload: &[u8], store: &mut [u8]) -> Result<usize, Short>
    ensures { stored result store.new ≡ store_text (ascii_text payload.now) store.old }
{
    let end = zero_at(payload);
    recode(&payload[..end], Form::Utf8, Form::Utf8, store)
}

// Counts the bytes that the UTF-8 text `text` takes in UTF-16, without a zero unit behind it.
pub fn encoded_unicode_len(text: &[u8]) -> usize
    ensures { result ≡ length (unicode_bytes text.now) }
{
    text_len(text, Form::Utf8, Form::Utf16)
}

// Stores the UTF-8 text `text` in UTF-16, without a zero unit behind it.
pub fn encode_unicode(text: &[u8], store: &mut [u8]) -> Result<usize, Short>
    ensures { stored result store.new ≡ store_text (unicode_bytes text.now) store.old }
{
    recode(text, Form::Utf8, Form::Utf16, store)
}

// ---- well-formed bytes

// Tells whether every byte of `s` belongs to a well-formed piece of the given form.
fn is_whole(s: &[u8], form: Form) -> bool
    ensures { result ≡ whole (pieces_of form s.now) (length s.now) }
{
    let mut at = 0;
    while let Some(p) = next_piece(s, at, form) {
        if !p.kept {
            return false;
        }
        at += p.size;
    }
    at == s.len()
}

// Tells whether the bytes are UTF-16 as a writer leaves it: no zero unit, each surrogate in a pair, no odd byte.
pub fn is_well_formed16(s: &[u8]) -> bool
    ensures { result ≡ well_formed16 s.now }
{
    is_whole(s, Form::Utf16)
}

// Tells whether the bytes are well-formed UTF-8 with no zero.
pub fn is_well_formed8(s: &[u8]) -> bool
    ensures { result ≡ well_formed8 s.now }
{
    zero_at(s) == s.len() && is_whole(s, Form::Utf8)
}
