// Questions on challenges, on the responses to them, and on their digests.
use crate::show::{Byte, Hex, Sixteen, put_done};
use base::Span;
use digest::md5;
use lines::word::{after, byte_at};
use packet::auth;
use packet::auth::{DigestChallenge, DigestResponse};
use std::io;
use std::io::Write;

// Returns the value of the list `v` at `place`, if there is one.
fn value_at(v: &[u8], place: Option<Span>) -> Option<&[u8]> {
    let Span { start, end } = place?;
    v.get(start..end)
}

// Answers with the parts of a challenge. The first byte of a realm is its charset.
pub(crate) fn challenge(out: &mut impl Write, v: &[u8]) -> io::Result<()> {
    let Some(
        DigestChallenge {
            nonce,
            user_id_required,
            read_only,
            realm,
        },
    ) = auth::read_challenge(v)
    else {
        return write!(out, "unreadable");
    };
    write!(
        out,
        "nonce={} user_id_required={} read_only={} realm=",
        Sixteen(nonce),
        u8::from(user_id_required),
        u8::from(read_only),
    )?;
    let Some(place) = realm else {
        return write!(out, "none");
    };
    write!(out, "{}:", Byte(byte_at(v, place.start)))?;
    match value_at(v, realm) {
        Some([_, name @ ..]) => write!(out, "{}", Hex(name)),
        _ => Ok(()),
    }
}

// Answers with the parts of the response to a challenge.
pub(crate) fn response_list(out: &mut impl Write, v: &[u8]) -> io::Result<()> {
    let Some(
        DigestResponse {
            digest,
            user,
            nonce,
        },
    ) = auth::read_response(v)
    else {
        return write!(out, "unreadable");
    };
    write!(out, "digest={} user=", Sixteen(digest))?;
    match value_at(v, user) {
        Some(name) => write!(out, "{}", Hex(name))?,
        None => write!(out, "none")?,
    }
    write!(out, " nonce=")?;
    match nonce {
        Some(named) => write!(out, "{}", Sixteen(named)),
        None => write!(out, "none"),
    }
}

// Answers whether the response to a challenge is right for a password.
pub(crate) fn verify(
    out: &mut impl Write,
    challenge: &[u8],
    response: &[u8],
    password: &[u8],
) -> io::Result<()> {
    let Some(DigestChallenge { nonce, .. }) = auth::read_challenge(challenge) else {
        return write!(out, "unreadable");
    };
    let Some(
        DigestResponse {
            digest,
            user,
            nonce: named,
        },
    ) = auth::read_response(response)
    else {
        return write!(out, "unreadable");
    };
    let is_right = auth::verify(nonce, digest, user, named, false, password);
    write!(out, "{is_right}")
}

// Answers with the response to a challenge.
pub(crate) fn respond(
    out: &mut impl Write,
    challenge: &[u8],
    user: Option<&[u8]>,
    password: &[u8],
) -> io::Result<()> {
    let Some(DigestChallenge { nonce, .. }) = auth::read_challenge(challenge) else {
        return write!(out, "unreadable");
    };
    let mut store = [0u8; 4096];
    let name = user.unwrap_or(b"");
    let done = auth::respond(&mut store, 0, nonce, user.is_some(), name, password);
    put_done(out, done, &store, "error ValueTooLarge ", name.len())
}

// Answers with the bytes of a challenge. The first byte of `realm` is its charset.
pub(crate) fn write_challenge(
    out: &mut impl Write,
    nonce: &[u8],
    user_id_required: bool,
    read_only: bool,
    realm: Option<&[u8]>,
) -> io::Result<()> {
    if nonce.len() != 16 {
        return write!(out, "bad nonce");
    }
    let mut store = [0u8; 4096];
    let name = realm.unwrap_or(b"");
    let done = auth::write_challenge(
        &mut store,
        0,
        md5::octets16_at(nonce, 0),
        user_id_required,
        read_only,
        realm.is_some(),
        byte_at(name, 0),
        &name[after(name, 0)..],
    );
    put_done(out, done, &store, "error ValueTooLarge ", name.len())
}

// Answers with the digest of a nonce and a password.
pub(crate) fn digest(out: &mut impl Write, nonce: &[u8], password: &[u8]) -> io::Result<()> {
    if nonce.len() != 16 {
        return write!(out, "bad nonce");
    }
    let digest = md5::request_digest(md5::octets16_at(nonce, 0), password);
    write!(out, "{}", Sixteen(digest))
}
