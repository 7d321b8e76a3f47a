// The headers of the requests: Target, Name, and the answer to a challenge.
use crate::order;
use crate::order::WORD;
use base::Span;
use digest::md5::Octets16;
use lines::output::least;
use packet::auth::{read_challenge, respond};
use packet::header::{first_header, put_bytes, put_unicode};
use packet::header_id;
use packet::tlv::Wrote;
use std::env::Env;

// How long the store of the headers is.
pub const HEADERS: usize = 8192;

// Where a response's headers begin that answers a Connect.
const CONNECT_HEADERS: usize = 7;

// Returns where a header ends that was written at `at`, or `at` if it was not.
fn end_of(wrote: Wrote, at: usize) -> usize {
    match wrote {
        Wrote::Written(end) => end,
        _ => at,
    }
}

// Puts the Name at the front of the header store, and returns how long it is.
pub(crate) fn put_name(rt: &impl Env, store: &mut [u8]) -> usize {
    let mut word = [0u8; WORD];
    let n = order::name(rt, &mut word);
    let wrote = put_unicode(store, 0, header_id::NAME, &word[0..n]);
    end_of(wrote, 0)
}

// Puts the Target at the front of the header store, if there is one, and returns how long it is.
pub(crate) fn put_target(rt: &impl Env, store: &mut [u8]) -> usize {
    if !order::has_word(rt, b"target") {
        return 0;
    }
    let mut bytes = [0u8; WORD];
    let n = order::target(rt, &mut bytes);
    let wrote = put_bytes(store, 0, header_id::TARGET, &bytes[0..n]);
    end_of(wrote, 0)
}

// What the server's challenge says, if it can be read.
#[derive(Clone, Copy)]
pub enum Demand {
    Nonce(Octets16),
    Nothing,
}

// Reads the challenge `value` of a header.
fn demand_of(value: &[u8]) -> Demand {
    match read_challenge(value) {
        Some(challenge) => Demand::Nonce(challenge.nonce),
        None => Demand::Nothing,
    }
}

// Returns what the response to a Connect asks for.
pub(crate) fn demand_in(response: &[u8]) -> Demand {
    let Some(Span { start, end }) = first_header(
        response,
        CONNECT_HEADERS,
        header_id::AUTHENTICATE_CHALLENGE,
    ) else {
        return Demand::Nothing;
    };
    if end < start {
        return Demand::Nothing;
    }
    if response.len() < end {
        return Demand::Nothing;
    }
    demand_of(&response[start..end])
}

// Writes the tag list that answers a nonce with the user and the password of the arguments, and returns how long it is.
fn put_tags(rt: &impl Env, tags: &mut [u8], nonce: Octets16) -> usize {
    let mut user = [0u8; WORD];
    let mut password = [0u8; WORD];
    let n = order::word_behind(rt, b"user", &mut user);
    let k = order::word_behind(rt, b"password", &mut password);
    let has_user = order::has_word(rt, b"user");
    let wrote = respond(tags, 0, nonce, has_user, &user[0..n], &password[0..k]);
    end_of(wrote, 0)
}

// Puts the answer to a nonce behind the `at` bytes of the header store, and returns how many bytes there are then.
fn put_answer(rt: &impl Env, store: &mut [u8], at: usize, nonce: Octets16) -> usize {
    let mut tags = [0u8; WORD];
    let n = put_tags(rt, &mut tags, nonce);
    let k = least(n, WORD);
    let wrote = put_bytes(store, at, header_id::AUTHENTICATE_RESPONSE, &tags[0..k]);
    end_of(wrote, at)
}

// Puts the headers of a Connect that answers a challenge: the Target, then the answer.
pub(crate) fn put_answered(rt: &impl Env, store: &mut [u8], nonce: Octets16) -> usize {
    let at = put_target(rt, store);
    put_answer(rt, store, at, nonce)
}
