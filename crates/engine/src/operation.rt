// A Put, the request of a Get, and the operations of headers alone, packet by packet (the source's `handle_put`, the request phase of
// `handle_get`, `handle_headers_only`).
ghost use Rattle.std.specs.Prelude.{◌≡◌, ◌≤◌, ℕ, true, List, length};
ghost use Rattle.model.specs.Operation.{nothing_gathered, gathers, overrun as overrunOf, put_body, headers_request};
ghost use Rattle.engine.specs.Operation.{keep_of, kind_plan, from_of, acts_gathered, put_continue_plan, put_final_plan, put_plan, get_plan, headers_plan};
ghost use Rattle.std.proofs.Math.Option.{some};
ghost use Rattle.packet.specs.Limits.{max_packet};
ghost use Rattle.packet.specs.Header.{read_headers};
ghost use Rattle.packet.specs.Packet.{request_of};
ghost use Rattle.journal.specs.Journal.{headers_of as headersIn};
ghost use Rattle.model.specs.Step.{stores, limit_of};
ghost use Rattle.model.specs.Guard.{sound_gathered};
ghost use Rattle.engine.specs.Step.{planned};

use crate::guard::wide;
use crate::step::{Plan, asks, code, code_keeping, continues, ends, wants};
use incoming::gather::{Gathered, Keep, gather};
use packet::opcode::Opcode;
use packet::packet::prefix_len;
use packet::response::REQUESTED_ENTITY_TOO_LARGE_BYTE;
use server::{Await, End, Engine, HostRequest, Operation, Settings};

// The kinds of operations whose packets the engine gathers.
// Stays an enum of its own: three kinds, of which one holds its opcode.
#[derive(Clone, Copy)]
pub(crate) enum GatherKind {
    Put,
    Get,
    Headers(Opcode),
}

// The flags of a packet that the engine gathers: what the packet says and what its operation has agreed on so far.
#[derive(Clone, Copy)]
pub(crate) struct GatherFlags {
    // The packet is the last one of its request.
    pub is_final: bool,
    // The client asks for it with the packet: an additional Continue for a Put, a wait for a Get.
    pub asked: bool,
    // Single Response Mode (SRM) is on.
    pub srm: bool,
    // The engine has yet to confirm SRM to the client, with its next response.
    pub confirm_srm: bool,
}

// Returns what is gathered before the first packet of an operation: nothing.
pub(crate) fn nothing_gathered() -> Gathered
    ensures { result ≡ nothing_gathered }
{
    Gathered {
        kept: 0,
        body: 0,
        came: false,
        over: false,
        full: false,
    }
}

// Returns which headers the engine keeps of an operation of this `kind`.
pub(crate) fn keep(kind: GatherKind) -> Keep
    ensures { result ≡ keep_of kind }
{
    match kind {
        GatherKind::Put => Keep::Put,
        GatherKind::Get => Keep::Get,
        GatherKind::Headers(_) => Keep::All,
    }
}

// Returns where the headers start in a packet of an operation of this `kind`.
fn headers_from(kind: GatherKind) -> usize
    ensures { result ≡ from_of kind }
{
    match kind {
        GatherKind::Put | GatherKind::Get => 3,
        GatherKind::Headers(opcode) => prefix_len(opcode),
    }
}

// Returns the body of a Put: missing if no body header came, which differs from an empty body.
fn put_body(g: Gathered) -> Option<usize>
    ensures { result ≡ put_body g }
{
    g.came.then_some(g.body)
}

// Returns what is open once the engine has refused a Put before its final packet: if `refuse_trailing` is set, the engine refuses the
// packets that trail the Put as well (docs/PROTOCOL.md#trailing).
fn overrun(settings: Settings) -> Operation
    ensures { result ≡ overrunOf settings }
{
    if settings.refuse_trailing {
        return Operation::Trailing;
    }
    Operation::Nothing
}

// Goes on after a Put packet that is not final. Under SRM the engine says Continue only if the client asks for it. Without SRM the client
// waits for this response, so a body past the limit is refused right away.
fn put_continues(e: Engine, g: Gathered, flags: GatherFlags) -> Plan
    ensures { result ≡ put_continue_plan e g flags }
{
    if flags.srm {
        let operation = Operation::Putting {
            gathered: g,
            srm: true,
        };
        if flags.asked {
            return continues(e, operation, false);
        }
        return wants(e, e.peer, operation);
    }
    if g.over {
        return code_keeping(e, overrun(e.settings), REQUESTED_ENTITY_TOO_LARGE_BYTE);
    }
    continues(
        e,
        Operation::Putting {
            gathered: g,
            srm: flags.confirm_srm,
        },
        flags.confirm_srm,
    )
}

// Goes on after the final packet of a Put: a body past the limit gets 0x4D, otherwise the host gets the record.
fn put_final(e: Engine, g: Gathered) -> Plan
    ensures { result ≡ put_final_plan e g }
{
    if g.over {
        return code(e, e.peer, Await::Taken, REQUESTED_ENTITY_TOO_LARGE_BYTE);
    }
    asks(
        e,
        e.peer,
        Operation::Nothing,
        Await::Reply,
        HostRequest::Put {
            kept: g.kept,
            body: put_body(g),
        },
    )
}

// Handles a Put packet whose headers are gathered. Kept headers over 65,535 bytes end the engine, before a body past the limit counts.
pub(crate) fn handle_put(e: Engine, g: Gathered, flags: GatherFlags) -> Plan
    ensures { result ≡ put_plan e g flags }
{
    if g.full {
        return ends(e, e.peer, End::HeadersTooLarge);
    }
    if flags.is_final {
        return put_final(e, g);
    }
    put_continues(e, g, flags)
}

// Handles a packet of a Get's request whose headers are gathered: the host is asked after the final packet.
pub(crate) fn handle_get(e: Engine, g: Gathered, flags: GatherFlags) -> Plan
    ensures { result ≡ get_plan e g flags }
{
    if g.full {
        return ends(e, e.peer, End::HeadersTooLarge);
    }
    let going = Operation::Getting {
        gathered: g,
        srm: flags.srm,
        confirm_srm: flags.confirm_srm,
        wait: flags.asked,
    };
    if flags.is_final {
        return asks(
            e,
            e.peer,
            going,
            Await::Get,
            HostRequest::Get { kept: g.kept },
        );
    }
    if flags.srm {
        return wants(e, e.peer, going);
    }
    continues(
        e,
        Operation::Getting {
            gathered: g,
            srm: flags.confirm_srm,
            confirm_srm: false,
            wait: flags.asked,
        },
        flags.confirm_srm,
    )
}

// Returns the request to the host for an operation of headers alone, of which `kept` bytes were kept.
fn headers_request(opcode: Opcode, kept: usize) -> HostRequest
    ensures { result ≡ headers_request opcode kept }
{
    match opcode {
        Opcode::Action => HostRequest::Action { kept },
        Opcode::Session => HostRequest::Session { kept },
        Opcode::UserDefined(value) => HostRequest::UserDefined {
            opcode: value,
            kept,
        },
        Opcode::Connect => HostRequest::UserDefined { opcode: 0x00, kept },
        Opcode::Disconnect => HostRequest::UserDefined { opcode: 0x01, kept },
        Opcode::Put => HostRequest::UserDefined { opcode: 0x02, kept },
        Opcode::Get => HostRequest::UserDefined { opcode: 0x03, kept },
        Opcode::SetPath => HostRequest::UserDefined { opcode: 0x05, kept },
        Opcode::Abort => HostRequest::UserDefined { opcode: 0x7F, kept },
    }
}

// Handles a packet of an Action, a Session or a user-defined operation, which carry no body.
pub(crate) fn handle_headers_only(e: Engine, opcode: Opcode, g: Gathered, is_final: bool) -> Plan
    ensures { result ≡ headers_plan e opcode g is_final }
{
    if g.full {
        return ends(e, e.peer, End::HeadersTooLarge);
    }
    if is_final {
        return asks(
            e,
            e.peer,
            Operation::Nothing,
            Await::Reply,
            headers_request(opcode, g.kept),
        );
    }
    continues(
        e,
        Operation::Gathering {
            opcode,
            gathered: g,
        },
        false,
    )
}

// Handles a packet whose headers are gathered, by its kind.
pub(crate) fn handle_gathered(e: Engine, kind: GatherKind, g: Gathered, flags: GatherFlags) -> Plan
    ensures { result ≡ kind_plan e kind g flags }
{
    match kind {
        GatherKind::Put => handle_put(e, g, flags),
        GatherKind::Get => handle_get(e, g, flags),
        GatherKind::Headers(opcode) => handle_headers_only(e, opcode, g, flags.is_final),
    }
}

// Gathers the headers of packet `p` into the header and body store and handles the packet.
pub(crate) fn gather_packet(
    e: Engine,
    p: &[u8],
    kind: GatherKind,
    begun: Gathered,
    flags: GatherFlags,
    headers: &mut [u8],
    body: &mut [u8],
) -> Plan
    requires { (read_headers p.now (from_of kind) ≡ some (headersIn (request_of p.now))) × (sound_gathered (limit_of e) begun ≡ true)
        × (max_packet ≤ length headers.old) × (limit_of e ≤ length body.old) }
    ensures { (q y : List ℕ) → planned result (stores q headers.new body.new y)
        ≡ acts_gathered e kind flags (gathers e (keep_of kind) (headersIn (request_of p.now)) begun
        (stores q headers.old body.old y)) (stores q headers.old body.old y) }
{
    let g = gather(
        p,
        headers_from(kind),
        keep(kind),
        wide(e.settings.max_object_size),
        begun,
        headers,
        body,
    );
    handle_gathered(e, kind, g, flags)
}
