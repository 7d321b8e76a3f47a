// The thirteen calls of a host, and nothing else. Each asks the guard first and then equals its definition in model/specs/Calls.
ghost use Rattle.std.specs.Prelude.{◌≡◌, []};
ghost use Rattle.packet.specs.Packet.{packet_bytes};
ghost use Rattle.model.specs.Guard.{guarded};
ghost use Rattle.model.specs.Step.{stepped, called, stores, after, replies};
ghost use Rattle.model.specs.Calls.{stream_ended_step, start_step, bytes_offered_step, reply_taken_step, abort_acknowledged_step, body_failed_step, body_given_step, object_given_step, nonce_given_step, password_given_step, reply_given_step, credentials_given_step, connections_closed_step};
ghost use Rattle.model.specs.Close.{closed};
ghost use Rattle.model.specs.Runs.{Octets};
ghost use Rattle.packet.specs.AuthWrite.{given};
ghost use Rattle.incoming.specs.Frame.{coming};
ghost use Rattle.connection.specs.Pieces.{credentials_of};

use crate::close::{close_all, closed_peer, go_on_with, guard_close, judge};
use crate::connect::{
    connect_answer, connect_with_credentials, demands_user, handle_disconnect, password_plan,
    send_challenge,
};
use crate::dispatch::{more, packet_done, with_taken};
use crate::guard::{
    guard, guard_lent, guard_nonce, guard_start, is_bad_headers, is_bad_reply, is_long_realm,
    refuse, same_await,
};
use crate::object::{object_of, packet_plan, sends_next, turn_plan};
use crate::request::is_right;
use crate::step::{carry_out, code, ends, fresh, sends, sent_plan, stream_end, took};
use base::copy_into;
use connection::peer::challenged;
use digest::md5::Octets16;
use incoming::frame::{Frame, read_packet};
use packet::response::{INTERNAL_SERVER_ERROR_BYTE, SUCCESS_BYTE};
use server::{Await, CallKind, CallResult, End, Engine, Operation, Outcome, Refusal, Settings};
use table::nonces::{is_used, remember};

// Starts an engine with `settings`, and with the bytes of `realm` if the settings say that there is one. The start is refused with
// `StoreTooShort`, or with `BadAnswer` if the realm is longer than 254 bytes; the state that comes back has then ended.
pub fn start(
    settings: Settings,
    realm: &[u8],
    tables: &[u64],
    packet: &mut [u8],
    headers: &mut [u8],
    body: &mut [u8],
    reply: &mut [u8],
) -> CallResult
    ensures { stepped result (stores packet.new headers.new body.new reply.new)
        ≡ start_step settings realm.now (stores packet.old headers.old body.old
        reply.old) tables.now }
{
    if let Err(refusal) = guard_start(
        settings.max_object_size,
        is_long_realm(settings.has_realm, realm.len()),
        tables.len(),
        packet.len(),
        headers.len(),
        body.len(),
        reply.len(),
    ) {
        return refuse(fresh(settings, Await::Nothing), refusal);
    }
    CallResult {
        engine: fresh(settings, Await::Bytes),
        taken: 0,
        outcome: Outcome::WantsBytes,
    }
}

// Offers the engine bytes from the client: first the `placed` ones that the host has put into the packet store itself, behind the `begun`
// ones of an unfinished packet, then those of `input`. The engine takes them up to the end of a packet and never past it; the host offers
// the rest again after the packet is answered (docs/PROTOCOL.md#frames). The open ids in `tables` decide whether a packet is admitted.
pub fn bytes_offered(
    e: Engine,
    placed: usize,
    input: &[u8],
    tables: &[u64],
    packet: &mut [u8],
    headers: &mut [u8],
    body: &mut [u8],
    reply: &mut [u8],
) -> CallResult
    ensures step { stepped result (stores packet.new headers.new body.new reply.new)
        ≡ bytes_offered_step e (coming packet.old e.begun placed input.now)
        (stores packet.old headers.old body.old reply.old) tables.now }
    ensures octets { Octets (coming packet.old e.begun placed input.now) }
{
    if let Err(refusal) = guard_lent(
        e,
        CallKind::FromPeer,
        tables.len(),
        packet.len(),
        headers.len(),
        body.len(),
        reply.len(),
    ) {
        return refuse(e, refusal);
    }
    let f = read_packet(e.begun, placed, input, packet);
    match f.frame {
        Frame::More => more(e, f.begun, f.taken),
        Frame::Short => with_taken(took(ends(e, e.peer, End::LengthTooSmall)), f.taken),
        Frame::Whole => with_taken(
            packet_done(e, f.begun, tables, &packet[..], headers, body, reply),
            f.taken,
        ),
    }
}

// Tells the engine that the client's stream has ended: the engine ends with `Disconnected` between packets, with `Truncated` inside one.
// Stays beside `reply_taken`: the two share the guard, which is one call, and no step after it.
pub fn stream_ended(
    e: Engine,
    packet: &mut [u8],
    headers: &mut [u8],
    body: &mut [u8],
    reply: &mut [u8],
) -> CallResult
    ensures { stepped result (stores packet.new headers.new body.new reply.new)
        ≡ stream_ended_step e (stores packet.old headers.old body.old reply.old) }
{
    if let Err(refusal) = guard(
        e,
        CallKind::FromPeer,
        packet.len(),
        headers.len(),
        body.len(),
        reply.len(),
    ) {
        return refuse(e, refusal);
    }
    took(ends(e, e.peer, stream_end(e.begun)))
}

// Tells the engine that the host has sent the reply. Under Single Response Mode (SRM) the next packet of an object may follow at once, else
// the engine wants bytes.
pub fn reply_taken(
    e: Engine,
    packet: &mut [u8],
    headers: &mut [u8],
    body: &mut [u8],
    reply: &mut [u8],
) -> CallResult
    ensures { stepped result (stores packet.new headers.new body.new reply.new)
        ≡ reply_taken_step e (stores packet.old headers.old body.old reply.old) }
{
    if let Err(refusal) = guard(
        e,
        CallKind::ReplyTaken,
        packet.len(),
        headers.len(),
        body.len(),
        reply.len(),
    ) {
        return refuse(e, refusal);
    }
    let plan = turn_plan(e, headers, reply);
    carry_out(plan, reply)
}

// Gives the host's reply to a request, a code and header bytes in canonical form. A Get may be answered so, or by `object_given`. A reply
// to a Connect or a Disconnect may change which ids are open in `tables`.
pub fn reply_given(
    e: Engine,
    code: u8,
    header_bytes: &[u8],
    tables: &mut [u64],
    packet: &mut [u8],
    headers: &mut [u8],
    body: &mut [u8],
    reply: &mut [u8],
) -> CallResult
    ensures { called (stepped result (stores packet.new headers.new body.new reply.new))
        tables.new
        ≡ reply_given_step e code header_bytes.now (stores packet.old headers.old body.old
        reply.old) tables.old }
{
    if let Err(refusal) = guard_lent(
        e,
        CallKind::ReplyGiven,
        tables.len(),
        packet.len(),
        headers.len(),
        body.len(),
        reply.len(),
    ) {
        return refuse(e, refusal);
    }
    if is_bad_reply(code, header_bytes) {
        return refuse(e, Refusal::BadAnswer);
    }
    let length = e.length;
    if same_await(e.awaits, Await::Connect) {
        return connect_answer(
            e,
            code,
            header_bytes,
            &packet[..length],
            tables,
            headers,
            reply,
        );
    }
    let peer = handle_disconnect(e, &packet[..length], tables);
    sends(e, peer, code, header_bytes, reply)
}

// Gives an object for a Get: its header bytes, in canonical form, and whether it has a body. The engine asks for the body's bytes when it
// needs them.
pub fn object_given(
    e: Engine,
    header_bytes: &[u8],
    has_body: bool,
    packet: &mut [u8],
    headers: &mut [u8],
    body: &mut [u8],
    reply: &mut [u8],
) -> CallResult
    ensures { stepped result (stores packet.new headers.new body.new reply.new)
        ≡ object_given_step e header_bytes.now has_body
        (stores packet.old headers.old body.old reply.old) }
{
    if let Err(refusal) = guard(
        e,
        CallKind::ObjectGiven,
        packet.len(),
        headers.len(),
        body.len(),
        reply.len(),
    ) {
        return refuse(e, refusal);
    }
    let Operation::Getting {
        srm,
        confirm_srm,
        wait,
        ..
    } = e.operation
    else {
        return refuse(e, Refusal::WrongMoment);
    };
    if is_bad_headers(header_bytes) {
        return refuse(e, Refusal::BadAnswer);
    }
    copy_into(headers, 0, header_bytes);
    let o = object_of(header_bytes.len(), confirm_srm, has_body);
    let granted = srm || confirm_srm;
    sends_next(e, o, granted, wait, headers, reply)
}

// Gives bytes of the object's body: at most as many as the engine asked for, and none at the body's end. More are refused with
// `WrongMoment`.
pub fn body_given(
    e: Engine,
    bytes: &[u8],
    packet: &mut [u8],
    headers: &mut [u8],
    body: &mut [u8],
    reply: &mut [u8],
) -> CallResult
    ensures { stepped result (stores packet.new headers.new body.new reply.new)
        ≡ body_given_step e bytes.now (stores packet.old headers.old body.old reply.old) }
{
    if let Err(refusal) = guard(
        e,
        CallKind::FromBody,
        packet.len(),
        headers.len(),
        body.len(),
        reply.len(),
    ) {
        return refuse(e, refusal);
    }
    let Operation::Sending {
        outgoing,
        chunk,
        srm,
        wait,
    } = e.operation
    else {
        return refuse(e, Refusal::WrongMoment);
    };
    if chunk.room < bytes.len() {
        return refuse(e, Refusal::WrongMoment);
    }
    let k = outgoing::object::body_given(outgoing, chunk, bytes, reply);
    carry_out(packet_plan(e, srm, wait, k), reply)
}

// Replies to a call of kind `k` with the first byte `byte` and no headers, after which nothing is open.
fn answers_code(
    e: Engine,
    k: CallKind,
    byte: u8,
    packet: &mut [u8],
    headers: &mut [u8],
    body: &mut [u8],
    reply: &mut [u8],
) -> CallResult
    ensures { let s = stores packet.old headers.old body.old reply.old in
        stepped result (stores packet.new headers.new body.new reply.new)
        ≡ guarded k e s (after 0 (replies e e.peer Operation.Nothing Await.Taken (packet_bytes byte [] []) s)) }
{
    if let Err(refusal) = guard(e, k, packet.len(), headers.len(), body.len(), reply.len()) {
        return refuse(e, refusal);
    }
    carry_out(code(e, e.peer, Await::Taken, byte), reply)
}

// Tells the engine that the object's body cannot be read on. The engine replies with 0x50 and ends the Get, even after earlier packets.
#[tactic(auto, unfolding(model::specs::Calls::body_failed_step))]
pub fn body_failed(
    e: Engine,
    packet: &mut [u8],
    headers: &mut [u8],
    body: &mut [u8],
    reply: &mut [u8],
) -> CallResult
    ensures { stepped result (stores packet.new headers.new body.new reply.new)
        ≡ body_failed_step e (stores packet.old headers.old body.old reply.old) }
{
    answers_code(
        e,
        CallKind::FromBody,
        INTERNAL_SERVER_ERROR_BYTE,
        packet,
        headers,
        body,
        reply,
    )
}

// Tells the engine that the host has heard of an Abort. The host gives no code: the reply to an Abort is always 0xA0.
#[tactic(auto, unfolding(model::specs::Calls::abort_acknowledged_step))]
pub fn abort_acknowledged(
    e: Engine,
    packet: &mut [u8],
    headers: &mut [u8],
    body: &mut [u8],
    reply: &mut [u8],
) -> CallResult
    ensures { stepped result (stores packet.new headers.new body.new reply.new)
        ≡ abort_acknowledged_step e (stores packet.old headers.old body.old reply.old) }
{
    answers_code(
        e,
        CallKind::AbortAcknowledged,
        SUCCESS_BYTE,
        packet,
        headers,
        body,
        reply,
    )
}

// Gives the password of the user that the client named, or none if the host knows no such user. A wrong or missing password makes the
// engine ask for a nonce, to challenge the client again.
pub fn password_given(
    e: Engine,
    // Stays a flag beside the bytes, as the C interface lends them (obex_engine_password_given).
    has_password: bool,
    password: &[u8],
    packet: &mut [u8],
    headers: &mut [u8],
    body: &mut [u8],
    reply: &mut [u8],
) -> CallResult
    ensures { stepped result (stores packet.new headers.new body.new reply.new)
        ≡ password_given_step e (given has_password password.now)
        (stores packet.old headers.old body.old reply.old) }
{
    if let Err(refusal) = guard(
        e,
        CallKind::PasswordGiven,
        packet.len(),
        headers.len(),
        body.len(),
        reply.len(),
    ) {
        return refuse(e, refusal);
    }
    let demands = demands_user(e.settings);
    let right = is_right(
        e.peer.challenge,
        &packet[..e.length],
        demands,
        has_password,
        password,
    );
    took(password_plan(e, right))
}

// Gives a fresh nonce for a challenge. The engine replies with 0x41 and the challenge, which carries the bytes of `realm` if the settings
// say that there is a realm. The host lends the same bytes as to the start; over 254 bytes are refused with `BadAnswer`, as there. A nonce
// that is one of the last 32 taken, which stand in `tables`, is refused with `NonceUsed`.
pub fn nonce_given(
    e: Engine,
    nonce: Octets16,
    realm: &[u8],
    tables: &mut [u64],
    packet: &mut [u8],
    headers: &mut [u8],
    body: &mut [u8],
    reply: &mut [u8],
) -> CallResult
    ensures { called (stepped result (stores packet.new headers.new body.new reply.new))
        tables.new
        ≡ nonce_given_step e nonce realm.now (stores packet.old headers.old body.old
        reply.old) tables.old }
{
    if let Err(refusal) = guard_lent(
        e,
        CallKind::NonceGiven,
        tables.len(),
        packet.len(),
        headers.len(),
        body.len(),
        reply.len(),
    ) {
        return refuse(e, refusal);
    }
    let used = is_used(&tables[..], e.peer.nonces, nonce);
    if let Err(refusal) = guard_nonce(e.settings, realm.len(), used) {
        return refuse(e, refusal);
    }
    remember(tables, nonce);
    let peer = challenged(e.peer, nonce);
    let sent = send_challenge(
        e.settings,
        realm,
        peer.remote_max_packet_length,
        nonce,
        reply,
    );
    took(sent_plan(e, peer, sent))
}

// Gives credentials for the client's challenge, or none. The reply to the Connect, which has waited for them, is made now. A user id of
// over 255 bytes is refused with `BadAnswer`.
pub fn credentials_given(
    e: Engine,
    has_credentials: bool,
    // Stays a flag beside the bytes, as the C interface lends them (obex_engine_credentials_given).
    has_user: bool,
    user: &[u8],
    password: &[u8],
    packet: &mut [u8],
    headers: &mut [u8],
    body: &mut [u8],
    reply: &mut [u8],
) -> CallResult
    ensures { stepped result (stores packet.new headers.new body.new reply.new)
        ≡ credentials_given_step e (credentials_of has_credentials (given has_user user.now) password.now)
        (stores packet.old headers.old body.old reply.old) }
{
    if let Err(refusal) = guard(
        e,
        CallKind::CredentialsGiven,
        packet.len(),
        headers.len(),
        body.len(),
        reply.len(),
    ) {
        return refuse(e, refusal);
    }
    let length = e.length;
    connect_with_credentials(
        e,
        has_credentials,
        has_user,
        user,
        password,
        &packet[..length],
        &headers[..],
        reply,
    )
}

// Closes the connections of `ids` together, all of them or none; the client is not told. Bytes must be awaited, and no operation may be
// open; a packet may have begun. Over 64 ids are refused with `TooManyIds`, one that is not open in `tables` with `IdNotOpen`, and one that
// occurs twice with `IdRepeated`, in this order. If some are closed and none is left, the peer is cleared as by its last Disconnect.
pub fn connections_closed(e: Engine, ids: &[u32], tables: &mut [u64]) -> CallResult
    ensures { closed result tables.new ≡ connections_closed_step e ids.now tables.old }
{
    if let Err(refusal) = guard_close(e, tables.len()) {
        return refuse(e, refusal);
    }
    let peer = e.peer;
    let count = peer.count;
    if let Err(refusal) = judge(ids, &tables[..], count) {
        return refuse(e, refusal);
    }
    let left = close_all(ids, tables, count);
    go_on_with(e, closed_peer(peer, ids.len(), left))
}
