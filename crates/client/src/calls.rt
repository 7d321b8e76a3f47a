// The client's calls (docs/PROTOCOL.md#client). Each takes the state that the call before returned, and the four stores that the user
// lends: the response, headers, the body bytes of a part, and the request. Each is defined for every state and every store.
ghost use Rattle.std.specs.Prelude.{◌≡◌};
ghost use Rattle.client_model.specs.Step.{stores, stepped};
ghost use Rattle.client_model.specs.Calls.{start_step, connect_step, disconnect_step, request_step, put_step, get_step, request_sent_step, body_given_step, part_taken_step, abort_step, bytes_offered_step, stream_ended_step};
ghost use Rattle.text.specs.Unicode.{Octets};
ghost use Rattle.incoming.specs.Frame.{coming};
ghost use Rattle.client.specs.Calls.{fresh_with, taken_turn, abort_taken_turn, abort_turn};

use crate::answer::response_done;
use crate::guard::{
    awaits_stream, check_connect, check_request, guard, is_abortable, is_short, refuse, same_await,
};
use crate::request::{
    ask_part, capacity_of, goes_on, id_length, requests, requests_first, send_abort, send_connect,
    send_disconnect,
};
use crate::step::{awaits_first, ends, over, stream_end, took, wants, with_begun, with_taken};
use client_model::{Await, CallResult, Client, End, Kind, Operation, Outcome, Refusal, Settings};
use incoming::frame::{Frame, read_packet};
use packet::limits::MIN_PACKET;

// Returns a client at its start. `awaits` is an operation, or nothing if the start is refused.
#[tactic(auto, unfolding(client_model::specs::Step::client_with))]
fn fresh(settings: Settings, awaits: Await) -> Client
    ensures { result ≡ fresh_with settings awaits }
{
    Client {
        settings,
        remote_max_packet_length: MIN_PACKET,
        connection_id: None,
        operation: Operation::Nothing,
        awaits,
        aborting: false,
        begun: 0,
        length: 0,
    }
}

// Starts a client. It is refused if a lent store is short; the state has then ended.
pub fn start(
    settings: Settings,
    packet: &mut [u8],
    headers: &mut [u8],
    body: &mut [u8],
    request: &mut [u8],
) -> CallResult
    ensures { stepped result (stores packet.new headers.new body.new request.new)
        ≡ start_step settings (stores packet.old headers.old body.old request.old) }
{
    if is_short(packet.len(), headers.len(), body.len(), request.len()) {
        return refuse(fresh(settings, Await::Nothing), Refusal::StoreTooShort);
    }
    took(fresh(settings, Await::Call), Outcome::Ready)
}

// Connects to the server, with header bytes in canonical form. The client tells its own limit, and takes the server's limit and
// ConnectionID from the response if that is a success.
// Stays beside `disconnect` and `start_request`: the three share the guard, which is one call; what they check and send differs.
pub fn connect(
    c: Client,
    header_bytes: &[u8],
    packet: &mut [u8],
    headers: &mut [u8],
    body: &mut [u8],
    request: &mut [u8],
) -> CallResult
    ensures { stepped result (stores packet.new headers.new body.new request.new)
        ≡ connect_step c header_bytes.now
        (stores packet.old headers.old body.old request.old) }
{
    let fits = same_await(c.awaits, Await::Call);
    if let Err(refusal) = guard(
        c,
        fits,
        packet.len(),
        headers.len(),
        body.len(),
        request.len(),
    ) {
        return refuse(c, refusal);
    }
    if let Err(refusal) = check_connect(0, header_bytes) {
        return refuse(c, refusal);
    }
    send_connect(c, header_bytes, request)
}

// Disconnects from the server, with header bytes in canonical form behind the ConnectionID.
pub fn disconnect(
    c: Client,
    header_bytes: &[u8],
    packet: &mut [u8],
    headers: &mut [u8],
    body: &mut [u8],
    request: &mut [u8],
) -> CallResult
    ensures { stepped result (stores packet.new headers.new body.new request.new)
        ≡ disconnect_step c header_bytes.now
        (stores packet.old headers.old body.old request.old) }
{
    let fits = same_await(c.awaits, Await::Call);
    if let Err(refusal) = guard(
        c,
        fits,
        packet.len(),
        headers.len(),
        body.len(),
        request.len(),
    ) {
        return refuse(c, refusal);
    }
    if let Err(refusal) = check_connect(id_length(c.connection_id), header_bytes) {
        return refuse(c, refusal);
    }
    send_disconnect(c, header_bytes, request)
}

// Starts a Put or a Get.
fn start_request(
    c: Client,
    kind: Kind,
    header_bytes: &[u8],
    has_body: bool,
    packet: &mut [u8],
    headers: &mut [u8],
    body: &mut [u8],
    request: &mut [u8],
) -> CallResult
    ensures { stepped result (stores packet.new headers.new body.new request.new)
        ≡ request_step c kind header_bytes.now has_body
        (stores packet.old headers.old body.old request.old) }
{
    let fits = same_await(c.awaits, Await::Call);
    if let Err(refusal) = guard(
        c,
        fits,
        packet.len(),
        headers.len(),
        body.len(),
        request.len(),
    ) {
        return refuse(c, refusal);
    }
    if let Err(refusal) = check_request(capacity_of(c), header_bytes) {
        return refuse(c, refusal);
    }
    requests_first(c, kind, header_bytes, has_body, headers, request)
}

// Puts an object: its header bytes, in canonical form, and whether it has a body. The client asks for the body's bytes when it needs them.
// Stays beside `get`: the C interface names both, and each is one call of `start_request`.
pub fn put(
    c: Client,
    header_bytes: &[u8],
    has_body: bool,
    packet: &mut [u8],
    headers: &mut [u8],
    body: &mut [u8],
    request: &mut [u8],
) -> CallResult
    ensures { stepped result (stores packet.new headers.new body.new request.new)
        ≡ put_step c header_bytes.now has_body
        (stores packet.old headers.old body.old request.old) }
{
    start_request(
        c,
        Kind::Put,
        header_bytes,
        has_body,
        packet,
        headers,
        body,
        request,
    )
}

// Gets an object by header bytes in canonical form. The client hands it over in parts.
pub fn get(
    c: Client,
    header_bytes: &[u8],
    packet: &mut [u8],
    headers: &mut [u8],
    body: &mut [u8],
    request: &mut [u8],
) -> CallResult
    ensures { stepped result (stores packet.new headers.new body.new request.new)
        ≡ get_step c header_bytes.now
        (stores packet.old headers.old body.old request.old) }
{
    let with_body = false;
    start_request(
        c,
        Kind::Get,
        header_bytes,
        with_body,
        packet,
        headers,
        body,
        request,
    )
}

// Tells the client that the user has sent the packet. Under Single Response Mode (SRM) the next packet of a request may follow at once,
// else the client wants bytes.
// Stays beside `stream_ended`: the two share the guard, which is one call, and no step after it.
pub fn request_sent(
    c: Client,
    packet: &mut [u8],
    headers: &mut [u8],
    body: &mut [u8],
    request: &mut [u8],
) -> CallResult
    ensures { stepped result (stores packet.new headers.new body.new request.new)
        ≡ request_sent_step c (stores packet.old headers.old body.old request.old) }
{
    let fits = same_await(c.awaits, Await::Sent);
    if let Err(refusal) = guard(
        c,
        fits,
        packet.len(),
        headers.len(),
        body.len(),
        request.len(),
    ) {
        return refuse(c, refusal);
    }
    goes_on(c, headers, request)
}

// Gives bytes of the body that is put: at most as many as the client asked for, and none at the body's end. More are refused with
// `WrongMoment`.
pub fn body_given(
    c: Client,
    bytes: &[u8],
    packet: &mut [u8],
    headers: &mut [u8],
    body: &mut [u8],
    request: &mut [u8],
) -> CallResult
    ensures { stepped result (stores packet.new headers.new body.new request.new)
        ≡ body_given_step c bytes.now
        (stores packet.old headers.old body.old request.old) }
{
    let fits = same_await(c.awaits, Await::Body);
    if let Err(refusal) = guard(
        c,
        fits,
        packet.len(),
        headers.len(),
        body.len(),
        request.len(),
    ) {
        return refuse(c, refusal);
    }
    let Operation::Requesting {
        kind,
        outgoing,
        chunk,
        srm,
        first,
        ..
    } = c.operation
    else {
        return refuse(c, Refusal::WrongMoment);
    };
    if chunk.room < bytes.len() {
        return refuse(c, Refusal::WrongMoment);
    }
    let k = outgoing::object::body_given(outgoing, chunk, bytes, request);
    requests(c, kind, srm, first, k, request)
}

// What the client does once the user has taken a part.
// Stays an enum of its own: four things may follow, and each has a name here.
#[derive(Clone, Copy)]
enum TakenTurn {
    // The part was the last one, and this is the server's code.
    Over { code: u8 },
    // The next part comes without being asked for.
    Wait,
    // The client asks for the next part.
    Ask,
    // No object comes.
    Wrong,
}

// Returns what follows a part that was taken, by the operation that is open.
fn after_part(operation: Operation) -> TakenTurn
    ensures { result ≡ taken_turn operation }
{
    let Operation::Receiving { srm, last, code } = operation else {
        return TakenTurn::Wrong;
    };
    if last {
        return TakenTurn::Over { code };
    }
    if srm { TakenTurn::Wait } else { TakenTurn::Ask }
}

// Tells the client that the user has taken a part of an object.
pub fn part_taken(
    c: Client,
    packet: &mut [u8],
    headers: &mut [u8],
    body: &mut [u8],
    request: &mut [u8],
) -> CallResult
    ensures { stepped result (stores packet.new headers.new body.new request.new)
        ≡ part_taken_step c (stores packet.old headers.old body.old request.old) }
{
    let fits = same_await(c.awaits, Await::Taken);
    if let Err(refusal) = guard(
        c,
        fits,
        packet.len(),
        headers.len(),
        body.len(),
        request.len(),
    ) {
        return refuse(c, refusal);
    }
    match after_part(c.operation) {
        TakenTurn::Over { code } => over(
            c,
            Outcome::Done {
                code,
                length: c.length,
            },
        ),
        TakenTurn::Wait => wants(c, c.operation, false),
        TakenTurn::Ask => ask_part(c, request),
        TakenTurn::Wrong => refuse(c, Refusal::WrongMoment),
    }
}

// What the client does once the user has aborted.
#[derive(Clone, Copy)]
enum AbortTurn {
    // A response is due, and comes first.
    First,
    // The rest of an object comes first, since the server reads no packet before its end.
    Drain,
    // The Abort takes the place of the packet that waits or is being made.
    Send,
}

// Returns what follows an Abort while a part waits, by the operation that is open.
fn after_part_aborted(operation: Operation) -> AbortTurn
    ensures { result ≡ abort_taken_turn operation }
{
    match operation {
        Operation::Receiving { srm: true, .. } => AbortTurn::Drain,
        _ => AbortTurn::Send,
    }
}

// Returns what follows an Abort, by what the client waits for and the operation that is open.
fn after_abort(awaits: Await, operation: Operation) -> AbortTurn
    ensures { result ≡ abort_turn awaits operation }
{
    match awaits {
        Await::Bytes => AbortTurn::First,
        Await::Taken => after_part_aborted(operation),
        Await::Call | Await::Sent | Await::Body | Await::Nothing => AbortTurn::Send,
    }
}

// Aborts the operation. It may be called once in an operation, up to the final packet of a Put and up to the last part of an object. If a
// packet waits to be sent, the Abort takes its place, so that none of its bytes may have been sent.
pub fn abort(
    c: Client,
    packet: &mut [u8],
    headers: &mut [u8],
    body: &mut [u8],
    request: &mut [u8],
) -> CallResult
    ensures { stepped result (stores packet.new headers.new body.new request.new)
        ≡ abort_step c (stores packet.old headers.old body.old request.old) }
{
    let fits = is_abortable(c);
    if let Err(refusal) = guard(
        c,
        fits,
        packet.len(),
        headers.len(),
        body.len(),
        request.len(),
    ) {
        return refuse(c, refusal);
    }
    match after_abort(c.awaits, c.operation) {
        AbortTurn::First => awaits_first(c),
        AbortTurn::Drain => wants(c, c.operation, true),
        AbortTurn::Send => send_abort(c, request),
    }
}

// Offers the client bytes from the server: first the `placed` ones that the user has put into the packet store itself, behind the `begun`
// ones of an unfinished response, then those of `input`. The client takes them up to the end of a response and never past it; the user
// offers the rest again once the client wants bytes (docs/PROTOCOL.md#frames).
pub fn bytes_offered(
    c: Client,
    placed: usize,
    input: &[u8],
    packet: &mut [u8],
    headers: &mut [u8],
    body: &mut [u8],
    request: &mut [u8],
) -> CallResult
    ensures step { stepped result (stores packet.new headers.new body.new request.new)
        ≡ bytes_offered_step c (coming packet.old c.begun placed input.now)
        (stores packet.old headers.old body.old request.old) }
    ensures octets { Octets (coming packet.old c.begun placed input.now) }
{
    let fits = same_await(c.awaits, Await::Bytes);
    if let Err(refusal) = guard(
        c,
        fits,
        packet.len(),
        headers.len(),
        body.len(),
        request.len(),
    ) {
        return refuse(c, refusal);
    }
    let f = read_packet(c.begun, placed, input, packet);
    match f.frame {
        Frame::More => with_taken(took(with_begun(c, f.begun), Outcome::WantsBytes), f.taken),
        Frame::Short => with_taken(ends(c, End::LengthTooSmall), f.taken),
        Frame::Whole => with_taken(
            response_done(c, f.begun, &packet[..], headers, body, request),
            f.taken,
        ),
    }
}

// Tells the client that the server's stream has ended: the client ends with `Disconnected` between responses, with `Truncated` inside one.
pub fn stream_ended(
    c: Client,
    packet: &mut [u8],
    headers: &mut [u8],
    body: &mut [u8],
    request: &mut [u8],
) -> CallResult
    ensures { stepped result (stores packet.new headers.new body.new request.new)
        ≡ stream_ended_step c (stores packet.old headers.old body.old request.old) }
{
    let fits = awaits_stream(c.awaits);
    if let Err(refusal) = guard(
        c,
        fits,
        packet.len(),
        headers.len(),
        body.len(),
        request.len(),
    ) {
        return refuse(c, refusal);
    }
    ends(c, stream_end(c.begun))
}
