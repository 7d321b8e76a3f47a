// Which calls are refused, decided by the state and the lengths of the lent stores (docs/PROTOCOL.md#refusals).
ghost use Rattle.std.specs.Prelude.{◌≡◌, ◌&&◌, ltb};
ghost use Rattle.model.specs.Guard.{same_await, fits, sound, sound_gathered, sound_outgoing, sound_operation, bad_headers, bad_reply};
ghost use Rattle.server.specs.declared.CallKind.TheVariants as kind;
ghost use Rattle.packet.specs.Limits.{max_realm};
ghost use Rattle.engine.specs.Guard.{short_by, guarded_by, guarded_lent, guarded_start, guarded_nonce, refused_with};

use incoming::gather::Gathered;
use outgoing::object::{Chunk, Outgoing};
use packet::header::is_canonical;
use packet::limits::{MAX_CAPACITY, MAX_CONNECTIONS, MAX_PACKET, MAX_REALM, MIN_PACKET};
use packet::response::is_code;
use server::{
    Await, CallKind, CallResult, Engine, Operation, Outcome, Refusal, Settings, await_number,
};
use table::TABLE_LENGTH;
use table::nonces::MAX_NONCES;

// Whether the engine waits for the same thing in `a` and `b`.
// Stays beside the client's of that name: each is one line over an enum of its own, and a trait for both would be longer.
pub(crate) fn same_await(a: Await, b: Await) -> bool
    ensures { result ≡ same_await a b }
{
    await_number(a) == await_number(b)
}

// Whether the host's reply is awaited: to a Connect, a Disconnect, a Get or any other request.
fn awaits_reply(a: Await) -> bool
    ensures { result ≡ fits kind.ReplyGiven a }
{
    matches!(
        a,
        Await::Connect | Await::Disconnect | Await::Get | Await::Reply
    )
}

// Whether the engine waits for a reply to be sent. The reply may be the last one.
fn awaits_taken(a: Await) -> bool
    ensures { result ≡ fits kind.ReplyTaken a }
{
    matches!(a, Await::Taken | Await::Last)
}

// Whether a call of kind `k` may come while the engine waits for `a`.
fn is_awaited(k: CallKind, a: Await) -> bool
    ensures { result ≡ fits k a }
{
    match k {
        CallKind::FromPeer => matches!(a, Await::Bytes),
        CallKind::ReplyTaken => awaits_taken(a),
        CallKind::ReplyGiven => awaits_reply(a),
        CallKind::ObjectGiven => matches!(a, Await::Get),
        CallKind::AbortAcknowledged => matches!(a, Await::Acknowledgement),
        CallKind::PasswordGiven => matches!(a, Await::Password),
        CallKind::NonceGiven => matches!(a, Await::Nonce),
        CallKind::CredentialsGiven => matches!(a, Await::Credentials),
        CallKind::FromBody => matches!(a, Await::Body),
    }
}

// Widens the Put limit to a length.
pub(crate) fn wide(n: u32) -> usize
    ensures { result ≡ n }
{
    n as usize
}

// Whether a lent store is too short: packet, header and reply store hold 65,535 bytes each, the body store as many as the Put limit.
#[tactic(auto, unfolding(crate::specs::Guard::short_by))]
pub(crate) fn is_short(limit: u32, packet: usize, headers: usize, body: usize, reply: usize) -> bool
    ensures { result ≡ short_by limit packet headers body reply }
{
    packet < MAX_PACKET || headers < MAX_PACKET || reply < MAX_PACKET || body < wide(limit)
}

// Whether the counts of gathered bytes are ones that a call can leave.
fn sound_gathered(limit: u32, g: Gathered) -> bool
    ensures { result ≡ sound_gathered limit g }
{
    g.kept <= MAX_PACKET && g.body <= wide(limit)
}

// Whether the counts of an object that is sent are ones that a call can leave.
fn sound_outgoing(o: Outgoing, c: Chunk) -> bool
    ensures { result ≡ sound_outgoing o c }
{
    o.total <= MAX_PACKET
        && o.sent <= o.total
        && c.at <= MAX_CAPACITY
        && c.got <= MAX_CAPACITY - c.at
        && c.room <= MAX_CAPACITY + 1 - c.at - c.got
}

// Whether the counts of the open operation are ones that a call can leave.
fn sound_operation(limit: u32, operation: Operation) -> bool
    ensures { result ≡ sound_operation limit operation }
{
    match operation {
        Operation::Putting { gathered, .. }
        | Operation::Getting { gathered, .. }
        | Operation::Gathering { gathered, .. } => sound_gathered(limit, gathered),
        Operation::Sending {
            outgoing,
            chunk,
            ..
        } => sound_outgoing(outgoing, chunk),
        Operation::Connecting { length, .. } => length <= MAX_PACKET,
        Operation::Nothing | Operation::Trailing | Operation::Draining { .. } => true,
    }
}

// Whether the state's counts are ones that a call can leave. Any other state is refused, so that a call is defined for every state that it
// is given.
#[tactic(auto, unfolding(model::specs::Guard::sound))]
pub(crate) fn is_sound(e: Engine) -> bool
    ensures { result ≡ sound e }
{
    e.begun < MAX_PACKET
        && e.length <= MAX_PACKET
        && e.peer.count <= MAX_CONNECTIONS
        && e.peer.remote_max_packet_length >= MIN_PACKET
        && e.peer.nonces <= MAX_NONCES
        && sound_operation(e.settings.max_object_size, e.operation)
}

// Returns the refusal of a call of kind `k`, or says that it may proceed. A short store comes before a wrong moment, and a state that no
// call can have left counts as a wrong moment, as after the end.
#[tactic(auto, unfolding(crate::specs::Guard::guarded_by))]
pub(crate) fn guard(
    e: Engine,
    k: CallKind,
    packet: usize,
    headers: usize,
    body: usize,
    reply: usize,
) -> Result<(), Refusal>
    ensures { result ≡ guarded_by k e packet headers body reply }
{
    if is_short(e.settings.max_object_size, packet, headers, body, reply) {
        return Err(Refusal::StoreTooShort);
    }
    if !is_sound(e) {
        return Err(Refusal::WrongMoment);
    }
    if is_awaited(k, e.awaits) {
        return Ok(());
    }
    Err(Refusal::WrongMoment)
}

// Returns the refusal of a call that is lent the table store too, which holds `TABLE_LENGTH` numbers, or says that it may proceed.
#[tactic(auto, unfolding(crate::specs::Guard::guarded_lent, crate::specs::Guard::guarded_by))]
pub(crate) fn guard_lent(
    e: Engine,
    k: CallKind,
    tables: usize,
    packet: usize,
    headers: usize,
    body: usize,
    reply: usize,
) -> Result<(), Refusal>
    ensures { result ≡ guarded_lent k e tables packet headers body reply }
{
    if tables < TABLE_LENGTH {
        return Err(Refusal::StoreTooShort);
    }
    guard(e, k, packet, headers, body, reply)
}

// Whether a realm is longer than the 254 bytes that fit beside the charset. Without a realm in the settings no length counts.
pub(crate) fn is_long_realm(has_realm: bool, length: usize) -> bool
    ensures { result ≡ has_realm && ltb max_realm length }
{
    has_realm && length > MAX_REALM
}

// Returns the refusal of a start, or says that it may proceed: a short store comes before a realm that is too long.
#[tactic(auto, unfolding(crate::specs::Guard::guarded_start))]
pub(crate) fn guard_start(
    limit: u32,
    long: bool,
    tables: usize,
    packet: usize,
    headers: usize,
    body: usize,
    reply: usize,
) -> Result<(), Refusal>
    ensures { result ≡ guarded_start limit long tables packet headers body reply }
{
    if tables < TABLE_LENGTH {
        return Err(Refusal::StoreTooShort);
    }
    if is_short(limit, packet, headers, body, reply) {
        return Err(Refusal::StoreTooShort);
    }
    if long {
        return Err(Refusal::BadAnswer);
    }
    Ok(())
}

// Returns the refusal of a nonce, or says that the engine may take it: a realm of `realm` bytes that is too long comes before a nonce that
// was used.
#[tactic(auto, unfolding(crate::specs::Guard::guarded_nonce))]
pub(crate) fn guard_nonce(settings: Settings, realm: usize, used: bool) -> Result<(), Refusal>
    ensures { result ≡ guarded_nonce (settings.has_realm && ltb max_realm realm) used }
{
    if is_long_realm(settings.has_realm, realm) {
        Err(Refusal::BadAnswer)
    } else if used {
        Err(Refusal::NonceUsed)
    } else {
        Ok(())
    }
}

// Returns the result of a refused call: the state as it was, and `refusal`.
pub(crate) fn refuse(e: Engine, refusal: Refusal) -> CallResult
    ensures { result ≡ refused_with refusal e }
{
    CallResult {
        engine: e,
        taken: 0,
        outcome: Outcome::Refused(refusal),
    }
}

// Whether header bytes are none that a host may give: over 65,535, or not what the writer gives for what the reader reads.
#[tactic(auto, unfolding(model::specs::Guard::bad_headers))]
pub(crate) fn is_bad_headers(s: &[u8]) -> bool
    ensures { result ≡ bad_headers s.now }
{
    s.len() > MAX_PACKET || !is_canonical(s)
}

// Whether a reply is none that a host may give: by its code or by its header bytes.
#[tactic(auto, unfolding(model::specs::Guard::bad_reply))]
pub(crate) fn is_bad_reply(code: u8, header_bytes: &[u8]) -> bool
    ensures { result ≡ bad_reply code header_bytes.now }
{
    !is_code(code) || is_bad_headers(header_bytes)
}
