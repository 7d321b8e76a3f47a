// Digest authentication (IrOBEX 1.5, section 3.6; docs/PROTOCOL.md#digest; the source's auth.rs) proves that both sides share a secret
// without sending it: the challenger sends a random nonce, and the responder answers with MD5(nonce ":" password). Places are relative to
// the payload of the header.
ghost use Rattle.std.specs.Prelude.{◌≡◌, false, not, ◌&&◌, ◌||◌, ◌∷◌, ◌+◌, ◌≤◌, ◌<◌, ◌^◌, length, ltb};
ghost use Rattle.base.specs.Pick.{pick};
ghost use Rattle.digest.specs.Md5.{octets16};
ghost use Rattle.packet.specs.Limits.{max_tag_value};
ghost use Rattle.packet.specs.Tags.{tags, last_value, write_tags};
ghost use Rattle.packet.specs.Auth.{realm_place, same, answers, realm_tag, user_tag, challenge_tags, answer_tags};
ghost use Rattle.packet.specs.Placed.{laid, putting};
ghost use Rattle.packet.specs.Flags.{flag_bits};
ghost use Rattle.packet.specs.AuthWrite.{given, overlong, write_challenge, write_digest_response};
ghost use Rattle.packet.specs.AuthRead.{bytes_named, sixteen_or, sixteen_in, sixteen_at, tag_zero, options_at, read_response, read_challenge, is_filled, verifies};

use crate::flags::flag_bits;
use crate::limits::MAX_TAG_VALUE;
use crate::store::{LengthField, room};
use crate::tlv::{TagAt, Wrote, last_under, last_value, put_tag, tag_at};
use base::{Span, copy_into};
use digest::md5::{Octets16, octets, octets16_at, request_digest};

// The tag of the nonce in a challenge.
const CHALLENGE_NONCE_TAG: u8 = 0x00;

// The tag of the options in a challenge.
const CHALLENGE_OPTIONS_TAG: u8 = 0x01;

// The tag of the realm in a challenge.
const CHALLENGE_REALM_TAG: u8 = 0x02;

// The tag of the request digest in a response.
const RESPONSE_DIGEST_TAG: u8 = 0x00;

// The tag of the user id in a response.
const RESPONSE_USER_ID_TAG: u8 = 0x01;

// The tag of the nonce in a response.
const RESPONSE_NONCE_TAG: u8 = 0x02;

// The option bit by which the challenger asks for a user id.
const OPTION_USER_ID_REQUIRED: u8 = 0x01;

// The option bit by which the challenger offers read-only access.
const OPTION_READ_ONLY: u8 = 0x02;

// The digest-response that an Authenticate Response header carries.
#[derive(Clone, Copy)]
pub struct DigestResponse {
    pub digest: Octets16,
    // Where the user id stands.
    pub user: Option<Span>,
    // The nonce that it answers: the standard lets it name one if several challenges were sent.
    pub nonce: Option<Octets16>,
}

// The digest-challenge that an Authenticate Challenge header carries.
#[derive(Clone, Copy)]
pub struct DigestChallenge {
    pub nonce: Octets16,
    pub user_id_required: bool,
    pub read_only: bool,
    // Where the realm stands, its charset byte first.
    pub realm: Option<Span>,
}

// Tells whether `tag` is not tag 0, or `n` is 16: a digest and a challenge's nonce are 16 bytes long.
fn is_sixteen(tag: u8, n: usize) -> bool
    ensures { result ≡ sixteen_or tag n }
{
    tag != RESPONSE_DIGEST_TAG || n == 16
}

// Tells whether tags fill the payload and each tag 0, a digest or a challenge's nonce, is 16 bytes long.
fn all_sixteen(v: &[u8]) -> bool
    ensures { result ≡ sixteen_in (tags v.now) }
{
    let mut at = 0;
    loop {
        match tag_at(v, at) {
            TagAt::At { tag, start, next } => {
                if !is_sixteen(tag, next - start) {
                    return false;
                }
                at = next;
            }
            TagAt::Bad => {
                return false;
            }
            TagAt::End => {
                return true;
            }
        }
    }
}

// Reads the last value under `tag`. A value that is not 16 bytes long counts as missing.
fn sixteen(v: &[u8], tag: u8) -> Option<Octets16>
    ensures { result ≡ sixteen_at v.now (last_value v.now tag) }
{
    let Some(value) = last_value(v, tag) else {
        return None;
    };
    if value.size() != 16 {
        return None;
    }
    Some(octets16_at(v, value.start))
}

// Reads the value under tag 0, a response's digest or a challenge's nonce, which is missing if any tag 0 is not 16 bytes long.
fn tag_zero(v: &[u8]) -> Option<Octets16>
    ensures { result ≡ tag_zero v.now }
{
    if !all_sixteen(v) {
        return None;
    }
    sixteen(v, RESPONSE_DIGEST_TAG)
}

// Returns the options of a challenge; an empty value is 0.
fn options(v: &[u8]) -> u8
    ensures { result ≡ options_at v.now (last_value v.now 1) }
{
    let Some(value) = last_value(v, CHALLENGE_OPTIONS_TAG) else {
        return 0;
    };
    if value.end <= value.start {
        return 0;
    }
    v[value.start]
}

// Finds the last realm that is not empty, its charset byte included.
pub fn realm(v: &[u8]) -> Option<Span>
    ensures { result ≡ realm_place v.now }
{
    last_under(v, CHALLENGE_REALM_TAG, false)
}

// Reads a digest-response, ignoring unknown tags. Of a repeated tag the last holds.
pub fn read_response(v: &[u8]) -> Option<DigestResponse>
    ensures { result ≡ read_response v.now }
{
    let digest = tag_zero(v)?;
    Some(DigestResponse {
        digest,
        user: last_value(v, RESPONSE_USER_ID_TAG),
        nonce: sixteen(v, RESPONSE_NONCE_TAG),
    })
}

// Reads a digest-challenge, ignoring unknown tags. Of a repeated tag the last holds.
pub fn read_challenge(v: &[u8]) -> Option<DigestChallenge>
    ensures { result ≡ read_challenge v.now }
{
    let nonce = tag_zero(v)?;
    let bits = options(v);
    Some(DigestChallenge {
        nonce,
        user_id_required: bits & OPTION_USER_ID_REQUIRED != 0,
        read_only: bits & OPTION_READ_ONLY != 0,
        realm: realm(v),
    })
}

// Tells whether `a` and `b` are the same sixteen bytes. As in the source the comparison does not stop at the first difference, so that its
// time does not tell a client how much of a digest was right.
fn same_octets(a: Octets16, b: Octets16) -> bool
    ensures { result ≡ same (octets16 a) (octets16 b) }
{
    ((a.first ^ b.first) | (a.second ^ b.second)) == 0
}

// Tells whether a response that names `named` answers the challenge with `nonce`, as it does if it names that nonce or none.
fn answers_nonce(nonce: Octets16, named: Option<Octets16>) -> bool
    ensures { result ≡ answers (octets16 nonce) (bytes_named named) }
{
    match named {
        Some(n) => same_octets(n, nonce),
        None => true,
    }
}

// Tells whether a value was found and is not empty.
fn is_filled(found: Option<Span>) -> bool
    ensures { result ≡ is_filled found }
{
    match found {
        Some(value) => value.start < value.end,
        None => false,
    }
}

// Tells whether a response whose user id stands at `user` may pass: if the server `demands` a user id, one must be there and not empty.
fn brings_user(demands: bool, user: Option<Span>) -> bool
    ensures { result ≡ (not demands || is_filled user) }
{
    !demands || is_filled(user)
}

// Checks a response with `digest`, which has its user id at `user` and names `named`, against the challenge's `nonce` and the expected
// `password`. If the server `demands` a user id, a response without one fails, whatever its digest (docs/PROTOCOL.md#digest).
pub fn verify(
    nonce: Octets16,
    digest: Octets16,
    user: Option<Span>,
    named: Option<Octets16>,
    demands: bool,
    password: &[u8],
) -> bool
    ensures { result ≡ verifies nonce digest user named demands password.now }
{
    if !brings_user(demands, user) {
        return false;
    }
    if !answers_nonce(nonce, named) {
        return false;
    }
    same_octets(request_digest(nonce, password), digest)
}

// Returns how many bytes a tag with a value of `n` bytes takes, or 0 if it is not there.
fn tag_len(there: bool, n: usize) -> usize
    requires { n < 2 ^ 63 + 1 }
    ensures { result ≡ pick there (2 + n) 0 }
{
    if !there {
        return 0;
    }
    2 + n
}

// Tells whether a value of `n` bytes is there and too long for its length byte.
pub fn is_long(there: bool, n: usize) -> bool
    ensures { result ≡ (there && ltb max_tag_value n) }
{
    there && MAX_TAG_VALUE < n
}

// Writes the realm with its charset in front, if there is one.
fn put_realm(store: &mut [u8], at: usize, there: bool, charset: u8, value: &[u8])
    requires { (overlong (given there (charset ∷ value.now)) ≡ false)
        × (at + length (write_tags (realm_tag (given there (charset ∷ value.now)))) ≤ length store.old) }
    ensures { store.new
        ≡ laid store.old at (write_tags (realm_tag (given there (charset ∷ value.now)))) }
{
    if !there {
        return;
    }
    store[at] = CHALLENGE_REALM_TAG;
    store[at + 1] = (value.len() + 1) as u8;
    store[at + 2] = charset;
    copy_into(store, at + 3, value);
}

// Writes the user id, if there is one.
fn put_user(store: &mut [u8], at: usize, there: bool, user: &[u8])
    requires { (overlong (given there user.now) ≡ false)
        × (at + length (write_tags (user_tag (given there user.now))) ≤ length store.old) }
    ensures { store.new ≡ laid store.old at (write_tags (user_tag (given there user.now))) }
{
    if !there {
        return;
    }
    put_tag(store, at, RESPONSE_USER_ID_TAG, user);
}

// Writes the tags of a challenge, which fit.
fn put_challenge(
    store: &mut [u8],
    at: usize,
    nonce: Octets16,
    bits: u8,
    // Stays a flag beside the bytes: so the settings hold the realm, from C too (`server::Settings`).
    has_realm: bool,
    charset: u8,
    value: &[u8],
)
    requires { (overlong (given has_realm (charset ∷ value.now)) ≡ false)
        × (at + length (write_tags (challenge_tags (octets16 nonce) bits (given has_realm (charset ∷ value.now)))) ≤ length store.old) }
    ensures { store.new
        ≡ laid store.old at (write_tags (challenge_tags (octets16 nonce) bits
        (given has_realm (charset ∷ value.now)))) }
{
    let bytes = octets(nonce);
    put_tag(store, at, CHALLENGE_NONCE_TAG, &bytes);
    put_tag(store, at + 18, CHALLENGE_OPTIONS_TAG, &[bits]);
    put_realm(store, at + 21, has_realm, charset, value);
}

// Writes the tag list of a challenge at `at` of the store. A realm is at most 254 bytes long, since its charset is one byte more.
pub fn write_challenge(
    store: &mut [u8],
    at: usize,
    nonce: Octets16,
    user_id_required: bool,
    read_only: bool,
    // Stays a flag beside the bytes: so the settings hold the realm, from C too (`server::Settings`).
    has_realm: bool,
    charset: u8,
    value: &[u8],
) -> Wrote
    ensures { putting result store.new
        ≡ write_challenge store.old at nonce (flag_bits user_id_required read_only)
        (given has_realm (charset ∷ value.now)) }
{
    let n = value.len() + 1;
    let need = 21 + tag_len(has_realm, n);
    let answer = room(
        store.len(),
        at,
        need,
        LengthField::OneByte,
        is_long(has_realm, n),
    );
    let Wrote::Written(next) = answer else {
        return answer;
    };
    let bits = flag_bits(user_id_required, read_only);
    put_challenge(store, at, nonce, bits, has_realm, charset, value);
    Wrote::Written(next)
}

// Writes the tags of a response, which fit.
fn put_response(
    store: &mut [u8],
    at: usize,
    digest: Octets16,
    // Stays a flag beside the bytes: so a host hands a user id over, from C too (`engine::calls::credentials_given`).
    has_user: bool,
    user: &[u8],
    nonce: Octets16,
)
    requires { (overlong (given has_user user.now) ≡ false)
        × (at + length (write_tags (answer_tags (octets16 digest) (given has_user user.now) (octets16 nonce))) ≤ length store.old) }
    ensures { store.new
        ≡ laid store.old at (write_tags (answer_tags (octets16 digest) (given has_user user.now)
        (octets16 nonce))) }
{
    let first = octets(digest);
    put_tag(store, at, RESPONSE_DIGEST_TAG, &first);
    put_user(store, at + 18, has_user, user);
    let last = octets(nonce);
    put_tag(
        store,
        at + 18 + tag_len(has_user, user.len()),
        RESPONSE_NONCE_TAG,
        &last,
    );
}

// Writes the tag list that answers the challenge with `nonce`, at `at` of the store. A user id is at most 255 bytes long here; the standard
// allows 20.
pub fn respond(
    store: &mut [u8],
    at: usize,
    nonce: Octets16,
    // Stays a flag beside the bytes: so a host hands a user id over, from C too (`engine::calls::credentials_given`).
    has_user: bool,
    user: &[u8],
    password: &[u8],
) -> Wrote
    ensures { putting result store.new
        ≡ write_digest_response store.old at nonce (given has_user user.now) password.now }
{
    let need = 36 + tag_len(has_user, user.len());
    let answer = room(
        store.len(),
        at,
        need,
        LengthField::OneByte,
        is_long(has_user, user.len()),
    );
    let Wrote::Written(next) = answer else {
        return answer;
    };
    let digest = request_digest(nonce, password);
    put_response(store, at, digest, has_user, user, nonce);
    Wrote::Written(next)
}
