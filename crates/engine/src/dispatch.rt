// Which way a packet goes (the source's `handle_next`, `dispatch`, `rejection`, `reject` and `next_request`): by its opcode if nothing is
// open, else by what is open. A packet may also be turned away, drained or unreadable.
ghost use Rattle.std.specs.Prelude.{◌≡◌, ◌≤◌, ℕ, true, List, length};
ghost use Rattle.model.specs.Dispatch.{rejection as rejectionOf, known_in, drains as drainsOf, confirms as confirmsOf, busy as busyWith, unknown_byte, is_marked as isMarkedIn, packet_target as packetTargetOf, arrived, packet_done};
ghost use Rattle.engine.specs.Dispatch.{admission_of, unauthorized_for, code_route, keep_route, ask_route, drained_by, rejected_route, gather_route, send_route, dispatch_route, open_route, interrupts_route, continued_route, draining_route, trailed_route, trailed_by, inside_route, heading_route, unreadable_route, simple_plan, packet_route, routed, target_under, targeted, acts, with_taken, more_took};
ghost use Rattle.packet.specs.Limits.{max_packet};
ghost use Rattle.packet.specs.FirstByte.{first_byte};
ghost use Rattle.packet.specs.Packet.{request_of};
ghost use Rattle.table.specs.Places.{table_length};
ghost use Rattle.model.specs.Step.{stepped, stores, limit_of, after};
ghost use Rattle.model.specs.Guard.{sound_operation};
ghost use Rattle.engine.specs.Step.{planned};

use crate::connect::handle_connect;
use crate::object::object_plan;
use crate::operation::{GatherFlags, GatherKind, gather_packet, nothing_gathered};
use crate::step::{Plan, asks, carry_out, code, code_keeping, ends, wants};
use connection::peer::is_open;
use incoming::gather::Gathered;
use incoming::survey::{Survey, survey_headers};
use outgoing::object::Outgoing;
use packet::header::first_header;
use packet::header_id::NAME;
use packet::opcode::{Opcode, from_byte, same};
use packet::packet::{packet_head, set_path_flags};
use packet::response;
use server::{Await, CallResult, End, Engine, HostRequest, Operation, Outcome};
use table::targets::{Target, find_place, target_at, unnamed};

// The parts of a readable packet that decide its way.
#[derive(Clone, Copy)]
pub(crate) struct Heading {
    pub survey: Survey,
    pub opcode: Opcode,
    // SetPath's flags, if the packet is a SetPath.
    pub backup: bool,
    pub no_create: bool,
    pub is_final: bool,
    // The packet names a ConnectionID, and it is open.
    pub known: bool,
    // The engine refuses what trails a Put that was too long, and the packet does.
    pub trails: bool,
}

// A step that needs no more of the packet than its heading.
#[derive(Clone, Copy)]
pub(crate) enum Simple {
    // The engine asks the host, and no operation stays open.
    Ask { awaits: Await, request: HostRequest },
    // The engine replies with a first byte and no headers, and no operation stays open.
    Code { awaits: Await, byte: u8 },
    // The engine replies with a first byte and no headers, and what is open stays.
    Keep { byte: u8 },
    // The engine reads on to the final packet of an operation that it has turned away, then replies with `code`.
    Drain { code: u8 },
    End(End),
}

// The way of a packet.
#[derive(Clone, Copy)]
pub(crate) enum Route {
    Plain(Simple),
    Connect,
    // The packet's headers are gathered. `flags` stands first, since a call takes fewer instructions so.
    Gather {
        flags: GatherFlags,
        kind: GatherKind,
        begun: Gathered,
    },
    // The engine sends the next packet of an object.
    Send {
        outgoing: Outgoing,
        srm: bool,
        wait: bool,
    },
}

// The way of a packet, and the Target under which it goes.
#[derive(Clone, Copy)]
pub(crate) struct Routed {
    pub route: Route,
    pub target: Target,
}

// Whether a password is required and not given. A Disconnect may not be refused (OBEX section 3.4.2).
fn is_unauthorized(e: Engine, opcode: Opcode) -> bool
    ensures { result ≡ unauthorized_for e opcode }
{
    e.settings.authentication && !e.peer.authenticated && !same(opcode, Opcode::Disconnect)
}

// Tells whether a packet may reach the host, or returns the code that refuses it: 0x41 for a missing password comes before 0x53 for a
// ConnectionID that is not open.
#[tactic(auto, unfolding(model::specs::Dispatch::rejection))]
fn rejection(e: Engine, h: Heading) -> Result<(), u8>
    ensures { result ≡ admission_of (rejectionOf e h.opcode h.survey h.known) }
{
    if is_unauthorized(e, h.opcode) {
        return Err(response::UNAUTHORIZED);
    }
    if h.survey.has_id && !h.known {
        return Err(response::SERVICE_UNAVAILABLE);
    }
    Ok(())
}

// Whether an operation of this opcode is drained if it is turned away under SRM: a Put or a Get.
fn has_drain(opcode: Opcode) -> bool
    ensures { result ≡ drainsOf opcode }
{
    same(opcode, Opcode::Put) || same(opcode, Opcode::Get)
}

// Returns the way of a packet to which the engine replies with `code`, and after which nothing is open.
fn reply_code(code: u8) -> Route
    ensures { result ≡ code_route code }
{
    Route::Plain(Simple::Code {
        awaits: Await::Taken,
        byte: response::to_byte(code),
    })
}

// Returns the way of a packet to which the engine replies with `code`, and after which what is open stays.
fn keep_code(code: u8) -> Route
    ensures { result ≡ keep_route code }
{
    Route::Plain(Simple::Keep {
        byte: response::to_byte(code),
    })
}

// Whether the engine reads the rest of an operation that it turns away before it replies. With Single Response Mode (SRM) enabled the
// client keeps sending the request without waiting, so its remaining packets are consumed first.
fn is_drained(e: Engine, h: Heading) -> bool
    ensures { result ≡ drained_by e h }
{
    e.peer.srm_enabled && has_drain(h.opcode) && !h.is_final
}

// Refuses an operation with `code`, after a drain or at once.
fn reject(e: Engine, h: Heading, code: u8) -> Route
    ensures { result ≡ rejected_route e h code }
{
    if is_drained(e, h) {
        return Route::Plain(Simple::Drain { code });
    }
    reply_code(code)
}

// Whether the engine grants SRM for this operation: the client asks for it, the settings support it, and it is not on for the session.
fn must_confirm_srm(e: Engine, v: Survey) -> bool
    ensures { result ≡ confirmsOf e v }
{
    !e.peer.srm_enabled && e.settings.srm_supported && v.enable
}

// Returns the way of a packet of an operation of this `kind`, of which `begun` was gathered before. A Put may ask for an additional
// Continue, a Get's request for a wait.
fn gather_route(
    h: Heading,
    kind: GatherKind,
    begun: Gathered,
    srm: bool,
    confirm_srm: bool,
) -> Route
    ensures { result ≡ gather_route h kind begun srm confirm_srm }
{
    let asked = match kind {
        GatherKind::Put => h.survey.additional,
        GatherKind::Get => h.survey.wait,
        GatherKind::Headers(_) => false,
    };
    Route::Gather {
        flags: GatherFlags {
            is_final: h.is_final,
            asked,
            srm,
            confirm_srm,
        },
        kind,
        begun,
    }
}

// Returns the way of a packet that asks for the next part of the object `outgoing`.
fn send_route(h: Heading, outgoing: Outgoing, srm: bool) -> Route
    ensures { result ≡ send_route h outgoing srm }
{
    Route::Send {
        outgoing,
        srm,
        wait: h.survey.wait,
    }
}

// Returns the way of a packet about which the engine asks the host with `request`.
fn ask(awaits: Await, request: HostRequest) -> Route
    ensures { result ≡ ask_route awaits request }
{
    Route::Plain(Simple::Ask { awaits, request })
}

// Dispatches an admitted packet by its opcode.
fn dispatch(e: Engine, h: Heading) -> Route
    ensures { result ≡ dispatch_route h.opcode e h }
{
    let length = e.length;
    match h.opcode {
        Opcode::Connect => Route::Connect,
        Opcode::Abort => ask(Await::Acknowledgement, HostRequest::Abort { length }),
        Opcode::Disconnect => ask(Await::Disconnect, HostRequest::Disconnect { length }),
        Opcode::SetPath => ask(
            Await::Reply,
            HostRequest::SetPath {
                length,
                backup: h.backup,
                no_create: h.no_create,
            },
        ),
        Opcode::Put => gather_route(
            h,
            GatherKind::Put,
            nothing_gathered(),
            e.peer.srm_enabled,
            must_confirm_srm(e, h.survey),
        ),
        Opcode::Get => gather_route(
            h,
            GatherKind::Get,
            nothing_gathered(),
            e.peer.srm_enabled,
            must_confirm_srm(e, h.survey),
        ),
        Opcode::Action | Opcode::Session | Opcode::UserDefined(_) => gather_route(
            h,
            GatherKind::Headers(h.opcode),
            nothing_gathered(),
            false,
            false,
        ),
    }
}

// Returns the way of a packet while nothing is open. The engine tests no admission of a Connect.
#[tactic(auto, unfolding(crate::specs::Dispatch::open_route))]
fn open_route(e: Engine, h: Heading) -> Route
    ensures { result ≡ open_route e h }
{
    if same(h.opcode, Opcode::Connect) {
        return Route::Connect;
    }
    match rejection(e, h) {
        Ok(()) => dispatch(e, h),
        Err(code) => reject(e, h, code),
    }
}

// Returns `route` for the next packet of an operation, if the packet has the operation's opcode, `open`. A packet with another opcode
// interrupts the operation.
fn next_request(h: Heading, open: Opcode, route: Route) -> Route
    ensures { result ≡ continued_route h «open» route }
{
    if same(h.opcode, open) {
        route
    } else {
        interrupts()
    }
}

// Returns the way of a packet that interrupts an operation: the engine replies with 0x40, and ends with `OtherOperation` once the reply is
// taken.
fn interrupts() -> Route
    ensures { result ≡ interrupts_route }
{
    Route::Plain(Simple::Code {
        awaits: Await::Last,
        byte: response::to_byte(response::BAD_REQUEST),
    })
}

// Returns the way of a packet of an operation that is drained: the engine replies with `code`, but only to the final packet.
fn draining(h: Heading, code: u8) -> Route
    ensures { result ≡ draining_route h code }
{
    if h.is_final {
        return reply_code(code);
    }
    Route::Plain(Simple::Drain { code })
}

// Returns the way of a packet that trails a Put that was too long (docs/PROTOCOL.md#trailing): the engine replies with 0x4D as it did to
// the Put, and a final packet is the last that it refuses so.
fn trailed(is_final: bool) -> Route
    ensures { result ≡ trailed_route is_final }
{
    if is_final {
        return reply_code(response::REQUESTED_ENTITY_TOO_LARGE);
    }
    keep_code(response::REQUESTED_ENTITY_TOO_LARGE)
}

// Returns the way of a packet by what is open. After a Put that was too long, the engine judges a packet that does not trail it as with
// nothing open; both cases come to one call, since a second one would keep the compiler from inlining it.
fn inside(e: Engine, h: Heading) -> Route
    ensures { result ≡ inside_route e.operation e h }
{
    match e.operation {
        Operation::Putting { gathered, srm } => next_request(
            h,
            Opcode::Put,
            gather_route(h, GatherKind::Put, gathered, srm, false),
        ),
        Operation::Getting {
            gathered,
            srm,
            confirm_srm,
            ..
        } => next_request(
            h,
            Opcode::Get,
            gather_route(h, GatherKind::Get, gathered, srm, confirm_srm),
        ),
        Operation::Sending { outgoing, srm, .. } => next_request(
            h,
            Opcode::Get,
            send_route(h, outgoing, srm),
        ),
        Operation::Gathering { opcode, gathered } => next_request(
            h,
            opcode,
            gather_route(h, GatherKind::Headers(opcode), gathered, false, false),
        ),
        Operation::Connecting { .. } => interrupts(),
        Operation::Draining { code } => draining(h, code),
        Operation::Nothing | Operation::Trailing => open_route(e, h),
    }
}

// Returns the way of a readable packet. An Abort goes before all else, since the engine answers it in every state. The engine refuses what
// trails a Put that was too long before it tests the admission.
#[tactic(auto, unfolding(crate::specs::Dispatch::heading_route))]
pub(crate) fn heading_route(e: Engine, h: Heading) -> Route
    ensures { result ≡ heading_route e h }
{
    if same(h.opcode, Opcode::Abort) {
        return ask(
            Await::Acknowledgement,
            HostRequest::Abort { length: e.length },
        );
    }
    if h.trails {
        return trailed(h.is_final);
    }
    inside(e, h)
}

// Whether an operation is open.
pub(crate) fn is_busy(operation: Operation) -> bool
    ensures { result ≡ busyWith operation }
{
    !matches!(operation, Operation::Nothing | Operation::Trailing)
}

// Returns the way of a packet that cannot be read. Inside an operation the engine ends with `Unreadable`. Otherwise the engine replies with
// 0x51 if the first byte is `unknown`, that is if it names no opcode, else with 0x40, and refuses what trails a Put as before.
pub(crate) fn unreadable(e: Engine, unknown: bool) -> Route
    ensures { result ≡ unreadable_route e.operation unknown }
{
    if is_busy(e.operation) {
        return Route::Plain(Simple::End(End::Unreadable));
    }
    if unknown {
        return keep_code(response::NOT_IMPLEMENTED);
    }
    keep_code(response::BAD_REQUEST)
}

// Whether the first byte names no opcode.
fn is_unknown(byte: u8) -> bool
    ensures { result ≡ unknown_byte (first_byte byte) }
{
    from_byte(byte).is_none()
}

// Whether the packet names a ConnectionID that is open: one of the ids in the table store.
fn is_known(e: Engine, v: Survey, tables: &[u64]) -> bool
    requires { (e.peer.count ≤ 64) × (table_length ≤ length tables.now) }
    ensures { result ≡ known_in e tables.now v }
{
    v.has_id && is_open(tables, e.peer.count, v.id)
}

// Whether the packet trails a Put that was too long, and the engine refuses what does: a Put packet without a Name. Only such a packet is
// read for its Name.
fn is_trailed(e: Engine, opcode: Opcode, p: &[u8]) -> bool
    ensures { result ≡ trailed_by e.operation opcode p.now }
{
    matches!(e.operation, Operation::Trailing)
        && same(opcode, Opcode::Put)
        && first_header(p, 3, NAME).is_none()
}

// Whether an operation of this opcode goes under the mark wherever it comes: a Connect or an Abort.
fn is_marked(opcode: Opcode) -> bool
    ensures { result ≡ isMarkedIn opcode }
{
    same(opcode, Opcode::Connect) || same(opcode, Opcode::Abort)
}

// Returns the Target under which a readable packet goes (docs/PROTOCOL.md#targets). A Connect or an Abort goes under the mark. Inside an
// operation the Target of its first packet stays. Otherwise the Target is that of the packet's ConnectionID, or the mark if the packet
// names none that is open.
fn packet_target(e: Engine, opcode: Opcode, v: Survey, known: bool, tables: &[u64]) -> Target
    requires { (e.peer.count ≤ 64) × (table_length ≤ length tables.now) × (known ≡ known_in e tables.now v) }
    ensures { result ≡ target_under e tables.now opcode v }
{
    if is_marked(opcode) {
        return unnamed();
    }
    if is_busy(e.operation) {
        return e.target;
    }
    if known {
        return match find_place(tables, e.peer.count, v.id) {
            Some(place) => target_at(tables, place),
            None => unnamed(),
        };
    }
    unnamed()
}

// Returns the way of a packet that cannot be read and begins with `byte`. The Target stays.
fn unreadable_route(e: Engine, byte: u8) -> Routed
    ensures { result ≡ routed (unreadable_route e.operation (unknown_byte (first_byte byte))) e.target }
{
    Routed {
        route: unreadable(e, is_unknown(byte)),
        target: e.target,
    }
}

// Reads a whole packet, in one pass over its headers, and returns its way.
pub(crate) fn route_packet(e: Engine, p: &[u8], tables: &[u64]) -> Routed
    requires { (1 ≤ length p.now) × (e.peer.count ≤ 64) × (table_length ≤ length tables.now) }
    ensures { result ≡ routed (packet_route e p.now tables.now) (packetTargetOf (request_of p.now) e tables.now) }
{
    let Some(head) = packet_head(p) else {
        return unreadable_route(e, p[0]);
    };
    let survey = survey_headers(p, head.headers);
    if !survey.readable {
        return unreadable_route(e, p[0]);
    }
    let flags = set_path_flags(p);
    let known = is_known(e, survey, tables);
    let trails = is_trailed(e, head.opcode, p);
    let route = heading_route(
        e,
        Heading {
            survey,
            opcode: head.opcode,
            backup: flags.backup,
            no_create: flags.no_create,
            is_final: head.is_final,
            known,
            trails,
        },
    );
    let target = packet_target(e, head.opcode, survey, known, tables);
    Routed { route, target }
}

// Carries out a step that needs no more of the packet than its heading.
#[tactic(auto, unfolding(crate::specs::Dispatch::simple_plan))]
pub(crate) fn simple_plan(e: Engine, brief: Simple) -> Plan
    ensures { result ≡ simple_plan e brief }
{
    match brief {
        Simple::Ask { awaits, request } => asks(e, e.peer, Operation::Nothing, awaits, request),
        Simple::Code { awaits, byte } => code(e, e.peer, awaits, byte),
        Simple::Keep { byte } => code_keeping(e, e.operation, byte),
        Simple::Drain { code } => wants(e, e.peer, Operation::Draining { code }),
        Simple::End(end) => ends(e, e.peer, end),
    }
}

// Returns the state with `target`, the Target under which the last packet goes.
#[tactic(auto, unfolding(model::specs::Step::engine_with))]
fn with_target(e: Engine, target: Target) -> Engine
    ensures { result ≡ targeted e target }
{
    Engine { target, ..e }
}

// Acts on a packet and returns the plan that is still to be carried out.
fn act(
    e: Engine,
    p: &[u8],
    tables: &[u64],
    headers: &mut [u8],
    body: &mut [u8],
    reply: &mut [u8],
) -> Plan
    requires { (1 ≤ length p.now) × (e.peer.count ≤ 64) × (table_length ≤ length tables.now) × (255 ≤ e.peer.remote_max_packet_length)
        × (sound_operation (limit_of e) e.operation ≡ true) × (max_packet ≤ length headers.old) × (limit_of e ≤ length body.old)
        × (max_packet ≤ length reply.old) }
    ensures { (q : List ℕ) → planned result (stores q headers.new body.new reply.new)
        ≡ acts (packet_route e p.now tables.now)
        (targeted e (packetTargetOf (request_of p.now) e tables.now)) p.now
        (stores q headers.old body.old reply.old) }
{
    let routed = route_packet(e, p, tables);
    let at = with_target(e, routed.target);
    match routed.route {
        Route::Plain(brief) => simple_plan(at, brief),
        Route::Connect => handle_connect(at, p),
        Route::Gather { flags, kind, begun } => gather_packet(
            at, p, kind, begun, flags, headers, body,
        ),
        Route::Send {
            outgoing,
            srm,
            wait,
        } => object_plan(at, outgoing, srm, wait, &headers[..], reply),
    }
}

// Returns the state after a whole packet of `n` bytes has arrived: later answers read it again from the packet store.
#[tactic(auto, unfolding(model::specs::Step::engine_with))]
fn whole(e: Engine, n: usize) -> Engine
    ensures { result ≡ arrived e n e.target }
{
    Engine {
        begun: 0,
        length: n,
        ..e
    }
}

// Handles a whole packet of `n` bytes at the front of the packet store.
pub(crate) fn packet_done(
    e: Engine,
    n: usize,
    tables: &[u64],
    packet: &[u8],
    headers: &mut [u8],
    body: &mut [u8],
    reply: &mut [u8],
) -> CallResult
    requires { (1 ≤ n) × (n ≤ length packet.now) × (e.peer.count ≤ 64) × (table_length ≤ length tables.now) × (255 ≤ e.peer.remote_max_packet_length)
        × (sound_operation (limit_of e) e.operation ≡ true) × (max_packet ≤ length headers.old) × (limit_of e ≤ length body.old)
        × (max_packet ≤ length reply.old) }
    ensures { stepped result (stores packet.now headers.new body.new reply.new)
        ≡ after 0 (packet_done e n (stores packet.now headers.old body.old reply.old)
        tables.now) }
{
    let at = whole(e, n);
    let plan = act(at, &packet[..n], tables, headers, body, reply);
    carry_out(plan, reply)
}

// Returns the result `r` with `taken`, the count of bytes that the engine took.
// Stays beside the client's of that name: one line each, over two results.
pub(crate) fn with_taken(r: CallResult, taken: usize) -> CallResult
    ensures { result ≡ with_taken r taken }
{
    CallResult { taken, ..r }
}

// Returns the result if the packet is not whole yet: `begun` bytes of it stand in the packet store, and the engine wants more.
#[tactic(auto, unfolding(model::specs::Step::engine_with))]
pub(crate) fn more(e: Engine, begun: usize, taken: usize) -> CallResult
    ensures { result ≡ more_took e begun taken }
{
    CallResult {
        engine: Engine { begun, ..e },
        taken,
        outcome: Outcome::WantsBytes,
    }
}
