// Headers for C and Rust: the first header of an id, the text of a Name or a Type, the headers that a user writes, and the answer to a
// challenge. These are the readers and writers of `packet` and `text`; each function tells what they answer as numbers, and no call requires
// anything.
#![tactic(auto)]

ghost use Rattle.std.specs.Prelude.{◌≡◌, [], ◌∷◌, ◌++◌};
ghost use Rattle.base.specs.Bytes.{bytes32};
ghost use Rattle.text.specs.Unicode.{lossy};
ghost use Rattle.text.specs.Text.{unicode_text, ascii_text, store_text};
ghost use Rattle.packet.specs.HeaderIds as header_id;
ghost use Rattle.packet.specs.Header.{first_place};
ghost use Rattle.packet.specs.HeaderWriter.{header, put_header};
ghost use Rattle.packet.specs.Canonical.{terminated16};
ghost use Rattle.packet.specs.AuthRead.{read_challenge};
ghost use Rattle.packet.specs.AuthWrite.{given, write_digest_response};
ghost use Rattle.headers_c.specs.Crossing.{place_of, answer_of, text_answer_of, flag_number, given_to_c, given_putting, given_text, challenge_told};

use base::{Short, Span};
use digest::md5::Octets16;
use packet::tlv::Wrote;

// A place in a list of bytes: `found` is 1 and the bytes are those from `start` up to `end`, or all three are 0.
#[repr(C)]
#[derive(Clone, Copy)]
pub struct Place {
    pub found: u64,
    pub start: usize,
    pub end: usize,
}

// An answer: `number` is 0 and bytes were written up to `end`, or nothing was written and `number` says why: 7, 8 or 10.
#[repr(C)]
#[derive(Clone, Copy)]
pub struct Answer {
    pub number: u64,
    pub end: usize,
}

// A challenge: whether it could be read, its nonce in two halves of eight bytes each, the first byte the highest, its options, and the place of
// its realm, the charset byte included. All are 0 if it could not be read.
#[repr(C)]
#[derive(Clone, Copy)]
pub struct Challenge {
    pub readable: u64,
    pub first: u64,
    pub second: u64,
    pub user_id_required: u64,
    pub read_only: u64,
    pub has_realm: u64,
    pub realm_start: usize,
    pub realm_end: usize,
}

// Returns the number of a flag.
fn flag_number(b: bool) -> u64
    ensures { result ≡ flag_number b }
{
    if b {
        return 1;
    }
    0
}

// Returns a place as C gets it.
fn place_of(f: Option<Span>) -> Place
    ensures { result ≡ place_of f }
{
    match f {
        Some(part) => Place {
            found: 1,
            start: part.start,
            end: part.end,
        },
        None => Place {
            found: 0,
            start: 0,
            end: 0,
        },
    }
}

// Returns the answer of a writer of headers as C gets it.
fn answer_of(w: Wrote) -> Answer
    ensures { result ≡ answer_of w }
{
    match w {
        Wrote::Written(end) => Answer { number: 0, end },
        Wrote::TooLong => Answer { number: 7, end: 0 },
        Wrote::BadValue => Answer { number: 8, end: 0 },
        Wrote::Short => Answer { number: 10, end: 0 },
    }
}

// Returns the answer of a reader of text as C gets it.
fn text_answer_of(d: Result<usize, Short>) -> Answer
    ensures { result ≡ text_answer_of d }
{
    match d {
        Ok(end) => Answer { number: 0, end },
        Err(Short) => Answer { number: 10, end: 0 },
    }
}

// Finds the value of the first header with `id`, from the byte `from` on. What stands behind a header that cannot be read is not found.
#[unsafe(no_mangle)]
pub extern "C" fn obex_header_find(headers: &[u8], from: usize, id: u8) -> Place
    ensures { result ≡ place_of (first_place id headers.now from) }
{
    place_of(packet::header::first_header(headers, from, id))
}

// Stays a function for each form of text: each is an exported name of the C interface (bindings/c).
// Stores the UTF-16 text of a header's `value`, as of a Name, in UTF-8: up to its first zero unit, each unpaired surrogate as U+FFFD.
#[unsafe(no_mangle)]
pub extern "C" fn obex_header_text(value: &[u8], store: &mut [u8]) -> Answer
    ensures { given_to_c result store.new ≡ given_text (store_text (unicode_text value.now) store.old) }
{
    text_answer_of(text::decode_unicode(value, store))
}

// Stores the text of the `value` of a Type or a Time in UTF-8: up to its first zero byte, what is ill-formed as U+FFFD.
#[unsafe(no_mangle)]
pub extern "C" fn obex_header_ascii(value: &[u8], store: &mut [u8]) -> Answer
    ensures { given_to_c result store.new ≡ given_text (store_text (ascii_text value.now) store.old) }
{
    text_answer_of(text::decode_ascii(value, store))
}

// Stays a function for each form of value, with the store and its place beside it: each is an exported name of the C interface.
// Writes a header with `value` at `at` of the store.
#[unsafe(no_mangle)]
pub extern "C" fn obex_header_put_bytes(store: &mut [u8], at: usize, id: u8, value: &[u8]) -> Answer
    ensures { given_to_c result store.new ≡ given_putting (put_header store.old at (header id value.now)) }
{
    answer_of(packet::header::put_bytes(store, at, id, value))
}

// Writes a header with a value of one byte at `at` of the store.
#[unsafe(no_mangle)]
pub extern "C" fn obex_header_put_u8(store: &mut [u8], at: usize, id: u8, value: u8) -> Answer
    ensures { given_to_c result store.new ≡ given_putting (put_header store.old at (header id (value ∷ []))) }
{
    answer_of(packet::header::put_u8(store, at, id, value))
}

// Writes a header with a value of four bytes, as Length or ConnectionID, at `at` of the store.
#[unsafe(no_mangle)]
pub extern "C" fn obex_header_put_u32(store: &mut [u8], at: usize, id: u8, value: u32) -> Answer
    ensures { given_to_c result store.new ≡ given_putting (put_header store.old at (header id (bytes32 value))) }
{
    answer_of(packet::header::put_u32(store, at, id, value))
}

// Writes a header with the UTF-8 `text`, as a Name, in UTF-16 with a zero unit behind it, at `at` of the store.
#[unsafe(no_mangle)]
pub extern "C" fn obex_header_put_text(store: &mut [u8], at: usize, id: u8, text: &[u8]) -> Answer
    ensures { given_to_c result store.new
        ≡ given_putting (put_header store.old at (header id (terminated16 (lossy text.now)))) }
{
    answer_of(packet::header::put_unicode(store, at, id, text))
}

// Writes the Type header with the UTF-8 `text` up to its first zero, and a zero byte behind it, at `at` of the store.
#[unsafe(no_mangle)]
pub extern "C" fn obex_header_put_type(store: &mut [u8], at: usize, text: &[u8]) -> Answer
    ensures { given_to_c result store.new
        ≡ given_putting (put_header store.old at (header header_id.type (ascii_text text.now ++ (0 ∷ [])))) }
{
    answer_of(packet::header::put_type(store, at, text))
}

// Reads the `value` of an AuthenticateChallenge.
#[unsafe(no_mangle)]
pub extern "C" fn obex_challenge_read(value: &[u8]) -> Challenge
    ensures { result ≡ challenge_told (read_challenge value.now) }
{
    match packet::auth::read_challenge(value) {
        Some(challenge) => {
            let place = place_of(challenge.realm);
            Challenge {
                readable: 1,
                first: challenge.nonce.first,
                second: challenge.nonce.second,
                user_id_required: flag_number(challenge.user_id_required),
                read_only: flag_number(challenge.read_only),
                has_realm: place.found,
                realm_start: place.start,
                realm_end: place.end,
            }
        }
        None => Challenge {
            readable: 0,
            first: 0,
            second: 0,
            user_id_required: 0,
            read_only: 0,
            has_realm: 0,
            realm_start: 0,
            realm_end: 0,
        },
    }
}

// Writes the tag list that answers the challenge whose nonce has the halves `first` and `second`, at `at` of the store: the value of an
// AuthenticateResponse.
#[unsafe(no_mangle)]
pub extern "C" fn obex_challenge_answer(
    store: &mut [u8],
    at: usize,
    first: u64,
    second: u64,
    // Stays a flag beside the bytes of a user: the C interface has no Option.
    has_user: bool,
    user: &[u8],
    password: &[u8],
) -> Answer
    ensures { given_to_c result store.new
        ≡ given_putting (write_digest_response store.old at (record { first = first; second = second })
        (given has_user user.now) password.now) }
{
    let nonce = Octets16 { first, second };
    answer_of(packet::auth::respond(store, at, nonce, has_user, user, password))
}
