// The settings of a receiver, as an operator writes them: in each line a word, a space and a value (specs/Conf).
ghost use Rattle.std.specs.Prelude.{◌≡◌, ◌≤◌, length, leb};
ghost use Rattle.base.specs.Pick.{pick};
ghost use Rattle.filing.specs.Lines.{lines_of};
ghost use Rattle.filing.specs.Conf.{said, is_said, digit_next, number_of, number_said, is_in, is_choice, is_hex, all_hex, right_target, packet_limit, right_value, right_line, wrong_from, realm_at_of, realm_said, user_asked, flags_said, conf_of, settings, records_word, records_taken};

use crate::line::{find, value_of};
use crate::payload::{OpenFlags, OpenNumbers};
use base::wide32;
use check::same;
use files::path::{front, service_folder};
use table::targets::{Target, is_named};

// What a text of settings says.
#[derive(Clone, Copy)]
pub struct Conf {
    // The number of the first line that is wrong, counted from 1, or 0 if each is right. The settings hold only if it is 0.
    pub wrong: usize,
    // The limits, the charset, and how long the realm is; the flags: as the first frame of a log has them.
    pub numbers: OpenNumbers,
    pub flags: OpenFlags,
    // Where the realm stands in the text.
    pub realm_at: usize,
}

// What is no number: over all that the settings allow.
const NO_NUMBER: u32 = 1000000;

// Returns what a text says behind a word: no bytes if no line has the word.
fn said<'a>(text: &'a [u8], word: &[u8]) -> &'a [u8]
    ensures { result.now ≡ said text.now word.now }
{
    match value_of(text, b' ', word) {
        Some(value) => value.of(text),
        None => &[],
    }
}

// Tells whether a text says this value behind a word.
fn is_said(text: &[u8], word: &[u8], value: &[u8]) -> bool
    ensures { result ≡ is_said text.now word.now value.now }
{
    same(said(text, word), value)
}

// Returns a number with one more decimal digit.
fn next_number(n: u32, b: u8) -> u32
    ensures value { result ≡ digit_next n b }
    ensures small { result ≤ 1000000 }
{
    if b < b'0' {
        return NO_NUMBER;
    }
    if b'9' < b {
        return NO_NUMBER;
    }
    if n < 100000 {
        return n * 10 + wide32(b - b'0');
    }
    NO_NUMBER
}

// Returns the number that a value is.
fn number_of(v: &[u8]) -> u32
    ensures { result ≡ number_of v.now }
{
    if v.len() == 0 {
        return NO_NUMBER;
    }
    let mut n: u32 = 0;
    let mut i = 0;
    while i < v.len() {
        n = next_number(n, v[i]);
        i += 1;
    }
    n
}

// Returns the number that a text says behind a word, at most `most`, or `default` if it says none.
fn number_said(text: &[u8], word: &[u8], default: u32, most: u32) -> u32
    requires { default ≤ most }
    ensures value { result ≡ number_said (said text.now word.now) default most }
    ensures small { result ≤ most }
{
    let v = said(text, word);
    if v.len() == 0 {
        return default;
    }
    let n = number_of(v);
    if n <= most { n } else { most }
}

// Tells whether a line is one of those of `choices`, which have a tab behind them.
fn is_in(choices: &[u8], line: &[u8]) -> bool
    ensures { result ≡ is_in choices.now line.now }
{
    value_of(choices, b'\t', line).is_some()
}

// Tells whether a line says one of several values.
fn is_choice(line: &[u8]) -> bool
    ensures { result ≡ is_choice line.now }
{
    if is_in(
        b"srm yes\t\nsrm no\t\npassword no\t\npassword required\t\nread-only no\t\nread-only yes\t\n",
        line,
    ) {
        return true;
    }
    is_in(
        b"user-id no\t\nuser-id asked\t\nuser-id enforced\t\ntrailing refused\t\ntrailing taken\t\nrecords any\t\nrecords none\t\n",
        line,
    )
}

// Tells whether a byte is a digit of a Target.
fn is_hex(b: u8) -> bool
    ensures { result ≡ is_hex b }
{
    if b < b'0' {
        return false;
    }
    if b <= b'9' {
        return true;
    }
    if b < b'a' {
        return false;
    }
    b <= b'f'
}

fn is_all_hex(s: &[u8]) -> bool
    ensures { result ≡ all_hex s.now }
{
    let mut i = 0;
    while i < s.len() {
        if is_hex(s[i]) {
            i += 1;
        } else {
            return false;
        }
    }
    true
}

// Tells whether a value is a Target of 1 to 16 bytes in hexadecimal.
fn is_target(v: &[u8]) -> bool
    ensures { result ≡ right_target v.now }
{
    if v.len() < 2 {
        return false;
    }
    if 32 < v.len() {
        return false;
    }
    if v.len() % 2 == 0 {
        return is_all_hex(v);
    }
    false
}

// Tells whether a number is a packet limit.
fn is_packet_limit(n: u32) -> bool
    ensures { result ≡ packet_limit n }
{
    if n < 255 {
        return false;
    }
    n <= 65535
}

// Tells whether a word may have a value.
fn is_value_right(word: &[u8], value: &[u8]) -> bool
    ensures { result ≡ right_value word.now value.now }
{
    let n = number_of(value);
    if same(word, b"limit") {
        return n <= 65536;
    }
    if same(word, b"charset") {
        return n <= 255;
    }
    if same(word, b"realm") {
        return value.len() <= 254;
    }
    if same(word, b"records") {
        return is_target(value);
    }
    if same(word, b"packet") {
        return is_packet_limit(n);
    }
    false
}

// Tells whether a line is right: empty, a comment, or a word with one of its values.
fn is_line_right(line: &[u8]) -> bool
    ensures { result ≡ right_line line.now }
{
    if line.len() == 0 {
        return true;
    }
    if line[0] == b'#' {
        return true;
    }
    if is_choice(line) {
        return true;
    }
    let n = find(line, b' ');
    if n < line.len() {
        return is_value_right(&line[0..n], &line[n + 1..]);
    }
    false
}

// Returns the number of the first wrong line, counted from 1, or 0 if each is right.
fn first_wrong(text: &[u8]) -> usize
    ensures { result ≡ wrong_from 1 (lines_of text.now) }
{
    let mut at = 0;
    let mut number = 1;
    while at < text.len() {
        let n = find(&text[at..], b'\n');
        let end = at + n;
        if is_line_right(&text[at..end]) {
            at = end + 1;
            number += 1;
        } else {
            return number;
        }
    }
    0
}

// Where the realm stands, and how many of its bytes count.
#[derive(Clone, Copy)]
struct Realm {
    at: usize,
    length: u8,
}

// Returns how many bytes of a realm count.
fn realm_length(n: usize) -> u8
    ensures { result ≡ pick (leb n 254) n 254 }
{
    if n <= 254 { n as u8 } else { 254 }
}

// Finds the realm.
fn find_realm(text: &[u8]) -> Realm
    ensures { realm_at_of text.now result ≡ realm_said text.now }
{
    match value_of(text, b' ', b"realm") {
        Some(value) => Realm {
            at: value.start,
            length: realm_length(value.size()),
        },
        None => Realm { at: 0, length: 0 },
    }
}

// Tells whether the challenges ask for a user id.
fn is_user_asked(text: &[u8]) -> bool
    ensures { result ≡ user_asked text.now }
{
    if is_said(text, b"user-id", b"asked") {
        return true;
    }
    is_said(text, b"user-id", b"enforced")
}

// Returns the flags that a text says.
fn flags_said(text: &[u8], has_realm: bool) -> OpenFlags
    ensures { result ≡ flags_said text.now has_realm }
{
    OpenFlags {
        srm: !is_said(text, b"srm", b"no"),
        authentication: is_said(text, b"password", b"required"),
        asks_user: is_user_asked(text),
        read_only: is_said(text, b"read-only", b"yes"),
        enforces_user: is_said(text, b"user-id", b"enforced"),
        refuses: !is_said(text, b"trailing", b"taken"),
        has_realm,
    }
}

// Reads a text of settings.
pub fn read_conf(text: &[u8]) -> Conf
    ensures { settings text.now result ≡ conf_of text.now }
{
    let realm = find_realm(text);
    let realm_at = realm.at;
    let length = realm.length;
    Conf {
        wrong: first_wrong(text),
        numbers: OpenNumbers {
            limit: number_said(text, b"limit", 49152, 65536),
            packet: number_said(text, b"packet", 65535, 65535) as u16,
            charset: number_said(text, b"charset", 0, 255) as u8,
            realm: length,
        },
        flags: flags_said(text, 0 < length),
        realm_at,
    }
}

// Tells whether Puts under `target` are records by a text of settings.
pub fn is_record_taken(text: &[u8], target: Target) -> bool
    ensures { result ≡ records_taken (said text.now records_word) target }
{
    let v = said(text, b"records");
    if v.len() == 0 {
        return true;
    }
    if same(v, b"any") {
        return true;
    }
    if !is_named(target) {
        return false;
    }
    let folder = service_folder(target);
    let name = folder.name;
    let whole = front(&name, folder.length);
    same(v, &whole[8..])
}
