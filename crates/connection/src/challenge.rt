// Authentication in a Connect (docs/PROTOCOL.md#connect; the source's verify_client, and what handle_connect reads of the peer's
// challenges).
ghost use Rattle.std.specs.Prelude.{◌≡◌};
ghost use Rattle.packet.specs.Header.{read_headers};
ghost use Rattle.packet.specs.AuthWrite.{given};
ghost use Rattle.connection.specs.Pieces.{headers_from, first_in, known_header, known_in, answered_in, nonce_for, check_of};

use base::Span;
use digest::md5::Octets16;
use packet::auth::{DigestChallenge, DigestResponse, read_challenge, verify};
use packet::header::{HeaderAt, first_header, header_at, is_readable};
use packet::header_id::AUTHENTICATE_CHALLENGE;

// Finds the value of the first header with `id`. If not all headers can be read, nothing is found.
pub fn first_in(s: &[u8], from: usize, id: u8) -> Option<Span>
    ensures { result ≡ first_in id s.now from }
{
    if !is_readable(s, from) {
        return None;
    }
    first_header(s, from, id)
}

// Tells whether a header is no challenge, or one that can be read.
fn is_known(id: u8, value: &[u8]) -> bool
    ensures { result ≡ known_header id value.now }
{
    id != AUTHENTICATE_CHALLENGE || read_challenge(value).is_some()
}

// Tells whether all headers can be read, and all challenges among them.
fn are_known(packet: &[u8], from: usize) -> bool
    ensures { result ≡ known_in (read_headers packet.now from) }
{
    let mut at = from;
    loop {
        match header_at(packet, at) {
            HeaderAt::At {
                id,
                encoding: _,
                start,
                end,
            } => {
                if !is_known(id, &packet[start..end]) {
                    return false;
                }
                at = end;
            }
            HeaderAt::Unreadable => {
                return false;
            }
            HeaderAt::End => {
                return true;
            }
        }
    }
}

// Reads the peer's first challenge, which is the one answered. If any challenge cannot be read, none is answered (the source's
// DigestChallenge::find_all).
pub fn answered_challenge(packet: &[u8], from: usize) -> Option<DigestChallenge>
    ensures { result ≡ answered_in (headers_from packet.now from) }
{
    if !are_known(packet, from) {
        return None;
    }
    let Some(value) = first_header(packet, from, AUTHENTICATE_CHALLENGE) else {
        return None;
    };
    read_challenge(value.of(packet))
}

// Returns the nonce of the peer's first challenge, if the host has credentials to answer it.
pub fn nonce_for(packet: &[u8], from: usize, has_credentials: bool) -> Option<Octets16>
    ensures { result ≡ nonce_for has_credentials (headers_from packet.now from) }
{
    if !has_credentials {
        return None;
    }
    let challenge = answered_challenge(packet, from)?;
    Some(challenge.nonce)
}

// Tells whether the password is right for the stored challenge and the client's response (the source's verify_client). If the server
// `demands` a user id, a response without one fails (docs/PROTOCOL.md#digest).
pub fn verify_client(
    stored: Option<Octets16>,
    found: Option<DigestResponse>,
    demands: bool,
    // Stays a flag beside the bytes: so a host hands the password over, from C too (`engine::calls::password_given`).
    has_password: bool,
    password: &[u8],
) -> bool
    ensures { result ≡ check_of stored found demands (given has_password password.now) }
{
    let Some(nonce) = stored else {
        return false;
    };
    let Some(
        DigestResponse {
            digest,
            user,
            nonce: named,
        },
    ) = found
    else {
        return false;
    };
    if !has_password {
        return false;
    }
    verify(nonce, digest, user, named, demands, password)
}
