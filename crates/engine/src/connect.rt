// Connect, from its packet to its reply (the source's `handle_connect` and `verify_client`): the password, a nonce for a new challenge, the
// host's answer, credentials for the client's own challenge. Disconnect (`handle_disconnect`) closes ids before its reply.
ghost use Rattle.std.specs.Prelude.{◌≡◌, false, ◌||◌, true, ◌&&◌, ◌≤◌, length};
ghost use Rattle.std.proofs.Math.Option.{none, some};
ghost use Rattle.packet.specs.Limits.{max_packet};
ghost use Rattle.packet.specs.ResponseCodes as response;
ghost use Rattle.packet.specs.Header.{first_place, read_headers, bytes_of};
ghost use Rattle.packet.specs.AuthWrite.{given, overlong};
ghost use Rattle.connection.specs.Pieces.{answered_in, credentials_of};
ghost use Rattle.model.specs.Request.{realm_in, placed_at};
ghost use Rattle.engine.specs.Request.{last_connect};
ghost use Rattle.engine.specs.Step.{written};
ghost use Rattle.engine.specs.Connect.{answering, accepting, headers_of, srm_asked_by, connect_replies, accepted_headers, answer_for, challenged_by, accepted_by, Below, answered_by, verifies_by, nonce_asked, question_of, stops_by, limited_plan, connect_plan, password_plan, replied_link, credentials_by};
ghost use Rattle.table.specs.Places.{table_length};
ghost use Rattle.connection.specs.Peer.{linked, answers};
ghost use Rattle.packet.specs.HeaderIds as header_id;
ghost use Rattle.packet.specs.Packet.{request_of};
ghost use Rattle.journal.specs.Journal.{headers_of as headersIn};
ghost use Rattle.digest.specs.Md5.{octets16};
ghost use Rattle.connection.specs.Reply.{fields_of, send_bytes, sending, sent_into};
ghost use Rattle.connection.specs.ConnectReply.{challenge_header};
ghost use Rattle.model.specs.Step.{limit_of};
ghost use Rattle.model.specs.Connect.{demands_user, options_of, realm_of};
ghost use Rattle.model.specs.Guard.{sound_operation, long_realm};

use crate::guard::{refuse, same_await};
use crate::request::{first_id, first_target, is_enabling, last_connect, last_from};
use crate::step::{Plan, asks, fields, sends_connect, sent_plan, took};
use base::{Span, copy_into};
use connection::challenge;
use connection::challenge::answered_challenge;
use connection::checks::too_many;
use connection::connect_reply::{challenge_reply, connect_reply};
use connection::peer::{Answer, Peer, disconnected, limited, opened_for, verified, with_check};
use connection::request::ConnectRequest;
use digest::md5::Octets16;
use packet::auth::{DigestChallenge, is_long, read_response, realm};
use packet::header::first_header;
use packet::header_id::{AUTHENTICATE_CHALLENGE, AUTHENTICATE_RESPONSE};
use packet::packet::connect_limit;
use packet::response::{SERVICE_UNAVAILABLE, is_success};
use server::{Await, CallResult, Engine, HostRequest, Operation, Refusal, Settings};

// Whether the Connect `c` in `packet` asks for Single Response Mode (SRM) and the settings support it.
fn srm_asked(e: Engine, packet: &[u8], c: ConnectRequest) -> bool
    requires { c ≡ last_connect packet.now }
    ensures { result ≡ srm_asked_by e packet.now }
{
    e.settings.srm_supported && is_enabling(packet, c)
}

// Whether SRM is on after the Connect `c` in `packet`. SRM that is on already stays on.
fn srm_after(e: Engine, packet: &[u8], c: ConnectRequest) -> bool
    requires { c ≡ last_connect packet.now }
    ensures { result ≡ e.peer.srm_enabled || srm_asked_by e packet.now }
{
    e.peer.srm_enabled || srm_asked(e, packet, c)
}

// Opens the ConnectionID that the host's answer names first. If it names none and the Connect has a Target, the engine looks for a new id
// and puts it in front of the answer (docs/PROTOCOL.md#connection-ids). The id takes the Connect's Target (docs/PROTOCOL.md#targets).
fn opens(
    e: Engine,
    header_bytes: &[u8],
    packet: &[u8],
    c: ConnectRequest,
    tables: &mut [u64],
) -> Option<Answer>
    requires { (e.peer.count ≤ 64) × (table_length ≤ length tables.old) × (c ≡ last_connect packet.now) }
    ensures { answers result tables.new
        ≡ answer_for e tables.old header_bytes.now packet.now }
{
    opened_for(
        e.peer,
        srm_after(e, packet, c),
        first_id(header_bytes, 0),
        first_target(packet, c),
        tables,
    )
}

// Finds the realm of the client's challenge in its Connect packet, so that the host can choose credentials by it.
fn challenge_realm(packet: &[u8]) -> Option<Span>
    ensures { result ≡ realm_in packet.now (first_place header_id.authenticate_challenge packet.now 7) }
{
    let value = first_header(packet, 7, AUTHENTICATE_CHALLENGE)?;
    placed(value.start, realm(value.of(packet)))
}

// Sends the reply to a Connect that the host has accepted: `front` in front, then Who if the packet has a Target, the host's headers, the
// answer to the client's challenge, and SRM.
pub(crate) fn connect_sends(
    e: Engine,
    peer: Peer,
    code: u8,
    front: Option<u32>,
    packet: &[u8],
    c: ConnectRequest,
    header_bytes: &[u8],
    has_credentials: bool,
    // Stays a flag beside the bytes, as the C interface lends them (obex_engine_credentials_given).
    has_user: bool,
    user: &[u8],
    password: &[u8],
    reply: &mut [u8],
) -> CallResult
    requires { (max_packet ≤ length reply.old) × (length packet.now ≤ max_packet) × (length header_bytes.now ≤ max_packet)
        × (overlong (given has_user user.now) ≡ false) × (c ≡ last_connect packet.now) }
    ensures { written result reply.new
        ≡ connect_replies e peer code (accepted_headers e front packet.now header_bytes.now
        (credentials_of has_credentials (given has_user user.now) password.now)) reply.old }
{
    let sent = connect_reply(
        reply,
        peer.remote_max_packet_length as usize,
        code,
        e.settings.max_packet_length,
        front,
        packet,
        c.from,
        c.target,
        header_bytes,
        has_credentials,
        has_user,
        user,
        password,
        srm_asked(e, packet, c),
    );
    took(sent_plan(e, peer, sent))
}

// Sends the reply to a Connect without credentials. `connect_sends` does not read the bytes that are passed in their place.
fn unchallenged(
    e: Engine,
    peer: Peer,
    code: u8,
    front: Option<u32>,
    header_bytes: &[u8],
    packet: &[u8],
    c: ConnectRequest,
    reply: &mut [u8],
) -> CallResult
    requires { (max_packet ≤ length reply.old) × (length packet.now ≤ max_packet) × (length header_bytes.now ≤ max_packet)
        × (c ≡ last_connect packet.now) }
    ensures { written result reply.new
        ≡ connect_replies e peer code (accepted_headers e front packet.now header_bytes.now none)
        reply.old }
{
    connect_sends(
        e,
        peer,
        code,
        front,
        packet,
        c,
        header_bytes,
        false,
        false,
        packet,
        packet,
        reply,
    )
}

// Reads the challenge of the Connect `c` in `packet` that is to be answered. Only if there is one, the walk that reads all of them follows.
fn challenge_in(packet: &[u8], c: ConnectRequest) -> Option<DigestChallenge>
    requires { c ≡ last_connect packet.now }
    ensures { result ≡ answered_in (headers_of packet.now) }
{
    let Some(_) = c.challenge else {
        return None;
    };
    answered_challenge(packet, c.from)
}

// Goes on after an id is open or not needed. If the client sent a challenge, the engine keeps the host's headers in the header store and
// asks for credentials; otherwise it replies.
fn accepted(
    e: Engine,
    peer: Peer,
    code: u8,
    front: Option<u32>,
    header_bytes: &[u8],
    packet: &[u8],
    c: ConnectRequest,
    headers: &mut [u8],
    reply: &mut [u8],
) -> CallResult
    requires { (max_packet ≤ length reply.old) × (max_packet ≤ length headers.old) × (length packet.now ≤ max_packet)
        × (length header_bytes.now ≤ max_packet) × (c ≡ last_connect packet.now) }
    ensures { answering result headers.new reply.new
        ≡ challenged_by (answered_in (headers_of packet.now)) e peer code front header_bytes.now
        packet.now headers.old reply.old }
{
    let Some(challenge) = challenge_in(packet, c) else {
        return unchallenged(e, peer, code, front, header_bytes, packet, c, reply);
    };
    copy_into(headers, 0, header_bytes);
    let operation = Operation::Connecting {
        code,
        front,
        length: header_bytes.len(),
    };
    let request = HostRequest::Credentials {
        nonce: challenge.nonce,
        user_id_required: challenge.user_id_required,
        read_only: challenge.read_only,
        realm: challenge_realm(packet),
    };
    took(asks(e, peer, operation, Await::Credentials, request))
}

// Takes the host's answer to a Connect. Any answer but success is sent as it is. A 65th id gets 0x53, and neither the ids nor SRM change.
pub(crate) fn connect_answer(
    e: Engine,
    code: u8,
    header_bytes: &[u8],
    packet: &[u8],
    tables: &mut [u64],
    headers: &mut [u8],
    reply: &mut [u8],
) -> CallResult
    requires { (e.peer.count ≤ 64) × (table_length ≤ length tables.old) × (max_packet ≤ length reply.old) × (max_packet ≤ length headers.old) × (length packet.now ≤ max_packet)
        × (length header_bytes.now ≤ max_packet) }
    ensures { accepting (answering result headers.new reply.new) tables.new
        ≡ accepted_by e tables.old code header_bytes.now packet.now headers.old
        reply.old }
{
    if !is_success(code) {
        return sends_connect(e, e.peer, code, header_bytes, reply);
    }
    let c = last_connect(packet);
    let Some(answer) = opens(e, header_bytes, packet, c, tables) else {
        return sends_connect(e, e.peer, SERVICE_UNAVAILABLE, &header_bytes[..0], reply);
    };
    accepted(
        e,
        answer.peer,
        code,
        answer.front,
        header_bytes,
        packet,
        c,
        headers,
        reply,
    )
}

// The client's response to the server's challenge: missing, unreadable, or readable, with the place of its user id in the packet.
// Stays an enum of its own: three cases, of which a place within another Option would hide two.
#[derive(Clone, Copy)]
pub(crate) enum Answered {
    Missing,
    Unreadable,
    User(Option<Span>),
}

// Turns a place in the part of the packet that begins at `at` into a place in the packet.
pub(crate) fn placed(at: usize, found: Option<Span>) -> Option<Span>
    requires { Below at found }
    ensures { result ≡ placed_at at found }
{
    let part = found?;
    Some(Span {
        start: at + part.start,
        end: at + part.end,
    })
}

// Finds the client's first AuthenticateResponse in the packet.
fn client_response(p: &[u8]) -> Answered
    requires { read_headers p.now 7 ≡ some (headersIn (request_of p.now)) }
    ensures { result ≡ answered_by p.now }
{
    let Some(value) = first_header(p, 7, AUTHENTICATE_RESPONSE) else {
        return Answered::Missing;
    };
    let Some(response) = read_response(value.of(p)) else {
        return Answered::Unreadable;
    };
    Answered::User(placed(value.start, response.user))
}

// What the engine asks the host, and what it waits for then.
#[derive(Clone, Copy)]
pub(crate) struct Question {
    pub awaits: Await,
    pub request: HostRequest,
}

// Returns the question that asks the host for a nonce.
fn nonce_question() -> Question
    ensures { result ≡ nonce_asked }
{
    Question {
        awaits: Await::Nonce,
        request: HostRequest::Nonce,
    }
}

// Asks the host for the password, if the client has answered a stored challenge. Otherwise asks it for a nonce, to challenge the client
// (again): the source's verify_client gives up at the same two places.
fn verifies(challenge: Option<Octets16>, a: Answered) -> Question
    ensures { result ≡ verifies_by challenge a }
{
    let Some(_) = challenge else {
        return nonce_question();
    };
    let Answered::User(user_id) = a else {
        return nonce_question();
    };
    Question {
        awaits: Await::Password,
        request: HostRequest::Password { user_id },
    }
}

// Returns what the engine asks the host about a Connect that is not stopped: if a password is required, the engine checks the client, and
// otherwise the host decides.
fn connect_question(
    authentication: bool,
    challenge: Option<Octets16>,
    a: Answered,
    length: usize,
) -> Question
    ensures { result ≡ question_of authentication challenge a length }
{
    if authentication {
        return verifies(challenge, a);
    }
    Question {
        awaits: Await::Connect,
        request: HostRequest::Connect { length },
    }
}

// Tells whether a Connect is stopped: eight or more of the last 64 checks were wrong, and it carries a response, readable or not
// (docs/PROTOCOL.md#eight-wrong).
fn is_stopped(window: u64, a: Answered) -> bool
    ensures { result ≡ stops_by window a }
{
    match a {
        Answered::Missing => false,
        _ => too_many(window),
    }
}

// Whether a Connect is stopped, which only happens if a password is required.
fn must_stop(authentication: bool, window: u64, a: Answered) -> bool
    ensures { result ≡ (authentication && stops_by window a) }
{
    authentication && is_stopped(window, a)
}

// Goes on after the client's packet limit is set: stops the Connect, checks the client, or asks the host whether it accepts the Connect.
// All questions to the host come to one call, since each further one leaves more copies of the state behind.
fn limited_plan(e: Engine, peer: Peer, a: Answered) -> Plan
    ensures { result ≡ limited_plan e peer a }
{
    let settings = e.settings;
    let authentication = settings.authentication;
    if must_stop(authentication, peer.window, a) {
        return fields(e, with_check(peer, false), SERVICE_UNAVAILABLE);
    }
    let challenge = peer.challenge;
    let q = connect_question(authentication, challenge, a, e.length);
    let awaits = q.awaits;
    let request = q.request;
    asks(e, peer, Operation::Nothing, awaits, request)
}

// Handles a Connect packet: sets the client's packet limit before the window and the password are looked at, as the source does.
pub(crate) fn handle_connect(e: Engine, p: &[u8]) -> Plan
    requires { read_headers p.now 7 ≡ some (headersIn (request_of p.now)) }
    ensures { result ≡ connect_plan e p.now }
{
    let limit = connect_limit(p) as u16;
    limited_plan(e, limited(e.peer, limit), client_response(p))
}

// Tells whether a response must bring a user id: the settings say that one is required, and that a response without one fails.
pub(crate) fn demands_user(settings: Settings) -> bool
    ensures { result ≡ demands_user settings }
{
    settings.user_id_enforced && settings.user_id_required
}

// If the password was right, asks the host whether it accepts the Connect. Otherwise asks it for a nonce, to challenge the client again.
// Either way the check joins the window.
pub(crate) fn password_plan(e: Engine, right: bool) -> Plan
    ensures { result ≡ password_plan e right }
{
    if right {
        return asks(
            e,
            verified(with_check(e.peer, false)),
            Operation::Nothing,
            Await::Connect,
            HostRequest::Connect { length: e.length },
        );
    }
    asks(
        e,
        with_check(e.peer, true),
        Operation::Nothing,
        Await::Nonce,
        HostRequest::Nonce,
    )
}

// Sends 0x41 with a challenge as the settings describe it: options, realm, and the nonce.
pub(crate) fn send_challenge(
    settings: Settings,
    realm: &[u8],
    remote: u16,
    nonce: Octets16,
    reply: &mut [u8],
) -> Option<usize>
    requires { (long_realm settings realm.now ≡ false) × (max_packet ≤ length reply.old) }
    ensures { sending result reply.new
        ≡ sent_into (send_bytes remote response.unauthorized (fields_of settings.max_packet_length)
        (bytes_of (challenge_header (octets16 nonce) (options_of settings) (realm_of settings realm.now)))) reply.old }
{
    challenge_reply(
        reply,
        remote as usize,
        settings.max_packet_length,
        nonce,
        settings.user_id_required,
        settings.read_only,
        settings.has_realm,
        settings.charset,
        realm,
    )
}

// Replies to the Connect that has waited, with credentials or without. A user id of over 255 bytes is refused with `BadAnswer`, since its
// length field has one byte.
pub(crate) fn connect_with_credentials(
    e: Engine,
    has_credentials: bool,
    // Stays a flag beside the bytes, as the C interface lends them (obex_engine_credentials_given).
    has_user: bool,
    user: &[u8],
    password: &[u8],
    packet: &[u8],
    headers: &[u8],
    reply: &mut [u8],
) -> CallResult
    requires { (sound_operation (limit_of e) e.operation ≡ true) × (length packet.now ≤ max_packet) × (max_packet ≤ length headers.now)
        × (max_packet ≤ length reply.old) }
    ensures { written result reply.new
        ≡ credentials_by e.operation e (credentials_of has_credentials (given has_user user.now)
        password.now) packet.now headers.now reply.old }
{
    let Operation::Connecting {
        code,
        front,
        length: kept,
    } = e.operation
    else {
        return refuse(e, Refusal::WrongMoment);
    };
    // A user id counts only if there are credentials.
    let named = has_credentials && has_user;
    if is_long(named, user.len()) {
        return refuse(e, Refusal::BadAnswer);
    }
    connect_sends(
        e,
        e.peer,
        code,
        front,
        packet,
        last_connect(packet),
        &headers[..kept],
        has_credentials,
        named,
        user,
        password,
        reply,
    )
}

// Closes the id that a Disconnect names before its reply is made. If no id is named or left, the peer's fields are cleared
// (docs/PROTOCOL.md#disconnect).
pub(crate) fn handle_disconnect(e: Engine, packet: &[u8], tables: &mut [u64]) -> Peer
    requires { (e.peer.count ≤ 64) × (table_length ≤ length tables.old) }
    ensures { linked result tables.new ≡ replied_link e packet.now tables.old }
{
    if !same_await(e.awaits, Await::Disconnect) {
        return e.peer;
    }
    disconnected(e.peer, first_id(packet, last_from(packet)), tables)
}
