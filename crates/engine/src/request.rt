// The request that is being answered: the client's last whole packet, read again from the packet store in a later call.
ghost use Rattle.std.specs.Prelude.{◌≡◌, is_some};
ghost use Rattle.std.proofs.Math.Option.{some};
ghost use Rattle.packet.specs.Header.{first};
ghost use Rattle.packet.specs.HeaderIds as header_id;
ghost use Rattle.packet.specs.Packet.{request_of};
ghost use Rattle.packet.specs.AuthWrite.{given};
ghost use Rattle.incoming.specs.Survey.{survey_of};
ghost use Rattle.connection.specs.Peer.{id_in, target_asked};
ghost use Rattle.connection.specs.Pieces.{headers_from};
ghost use Rattle.journal.specs.Journal.{response_in, headers_of as headersIn};
ghost use Rattle.model.specs.Connect.{checks};
ghost use Rattle.engine.specs.Request.{last_from, last_connect};

use connection::challenge::verify_client;
use connection::request::{ConnectRequest, connect_request};
use digest::md5::Octets16;
use incoming::survey::survey_headers;
use packet::auth::read_response;
use packet::packet::packet_head;
use packet::srm::ENABLE;
use table::targets::{Target, target_of};

// Returns where the headers of packet `q` start, whether they can be read or not. If the first byte of `q` names no opcode, or its fields
// are not all there, that is its end, so that it has none.
pub(crate) fn last_from(q: &[u8]) -> usize
    ensures { result ≡ last_from q.now }
{
    match packet_head(q) {
        Some(head) => head.headers,
        None => q.len(),
    }
}

// Reads the headers of packet `q` that the answer to a Connect looks for, in one walk.
pub(crate) fn last_connect(q: &[u8]) -> ConnectRequest
    ensures { result ≡ last_connect q.now }
{
    connect_request(q, last_from(q))
}

// Returns the first ConnectionID among the headers of `s` from `from` on, if there is one.
pub(crate) fn first_id(s: &[u8], from: usize) -> Option<u32>
    ensures { result ≡ id_in (first header_id.connection_id (headers_from s.now from)) }
{
    let v = survey_headers(s, from);
    if v.has_id {
        return Some(v.id);
    }
    None
}

// Returns the Target that the Connect `c` in packet `q` gives an id: that of its first Target header, if it has one.
pub(crate) fn first_target(q: &[u8], c: ConnectRequest) -> Option<Target>
    requires { c ≡ last_connect q.now }
    ensures { result ≡ target_asked (first header_id.target (headersIn (request_of q.now))) }
{
    match c.target {
        Some(value) => Some(target_of(value.of(q))),
        None => None,
    }
}

// Whether the first SingleResponseMode header of the Connect `c` in packet `q` is Enable.
pub(crate) fn is_enabling(q: &[u8], c: ConnectRequest) -> bool
    requires { c ≡ last_connect q.now }
    ensures { result ≡ (survey_of (some (headersIn (request_of q.now)))).enable }
{
    match c.mode {
        Some(value) => q[value.start] == ENABLE,
        None => false,
    }
}

// Whether the password is right for the stored challenge and the first AuthenticateResponse of packet `q`, which must bring a user id if
// the server `demands` one.
pub(crate) fn is_right(
    stored: Option<Octets16>,
    q: &[u8],
    demands: bool,
    // Stays a flag beside the bytes, as the C interface lends them (obex_engine_password_given).
    has_password: bool,
    password: &[u8],
) -> bool
    ensures { result ≡ checks stored (response_in (first header_id.authenticate_response (headersIn (request_of q.now)))) demands
        (given has_password password.now) }
{
    let c = last_connect(q);
    let Some(value) = c.response else {
        return false;
    };
    verify_client(
        stored,
        read_response(value.of(q)),
        demands,
        has_password,
        password,
    )
}
