// Which way a packet goes, by its opcode if nothing is open, else by what is open (docs/PROTOCOL.md#journal).
ghost use Rattle.std.specs.Prelude.{◌≡◌};
ghost use Rattle.journal_code.specs.Route.{unauthorized_in, admitted_in, turned_open, gathers_on, asks_in, first_put, admitted_route, turned_by, first_route, trails_in, trailing_route, continued, drained, inside_route, heading_route};

use crate::heading::Heading;
use crate::state::{Open, State};
use packet::opcode::{Opcode, same};

// The way of a packet.
#[derive(Clone, Copy)]
pub(crate) enum Route {
    // It interrupts the operation that is open, and the session ends.
    Stop,
    // It leaves this open.
    Become(Open),
    // It is a packet of a Put, the `first` or a later one; Single Response Mode (SRM) is `srm` at this packet, and `next` from the next one
    // on.
    Put { first: bool, srm: bool, next: bool },
}

// Tells whether a password is required and was not given. A Disconnect may not be refused.
#[tactic(auto, unfolding(packet::specs::FirstByte::same_opcode))]
fn is_unauthorized(s: State, opcode: Opcode) -> bool
    ensures { result ≡ unauthorized_in s opcode }
{
    s.settings.authentication && !s.peer.authenticated && !matches!(opcode, Opcode::Disconnect)
}

// Tells whether a packet passes: it is not unauthorized, and the id that it names, if any, is open.
#[tactic(auto, unfolding(crate::specs::Route::admitted_in))]
fn is_admitted(s: State, h: Heading) -> bool
    ensures { result ≡ admitted_in s h }
{
    !is_unauthorized(s, h.opcode) && !h.unknown
}

// Returns what is open once a Put or a Get was turned away: under SRM the client sends on without waiting.
#[tactic(auto, unfolding(crate::specs::Route::turned_open))]
fn turned_open(s: State, h: Heading) -> Open
    ensures { result ≡ turned_open s h }
{
    if s.peer.srm_enabled && !h.is_final {
        Open::Draining
    } else {
        Open::Nothing
    }
}

// Returns what is open after a packet of an operation of headers alone.
fn gathers_on(opcode: Opcode, is_final: bool) -> Open
    ensures { result ≡ gathers_on opcode is_final }
{
    if is_final {
        Open::Nothing
    } else {
        Open::Gathering(opcode)
    }
}

// Tells whether SRM is on from the next packet of a Put on.
pub(crate) fn is_srm_on(s: State, enable: bool) -> bool
    ensures { result ≡ asks_in s enable }
{
    s.peer.srm_enabled || s.settings.srm && enable
}

// Returns the way of the first packet of a Put.
fn put_route(s: State, h: Heading) -> Route
    ensures { result ≡ first_put s h }
{
    Route::Put {
        first: true,
        srm: s.peer.srm_enabled,
        next: is_srm_on(s, h.enable),
    }
}

// Returns the way of a packet that passes, with nothing open.
fn admitted_route(s: State, h: Heading) -> Route
    ensures { result ≡ admitted_route h.opcode s h }
{
    match h.opcode {
        Opcode::Connect | Opcode::Disconnect | Opcode::SetPath | Opcode::Abort => Route::Become(
            Open::Nothing,
        ),
        Opcode::Put => put_route(s, h),
        Opcode::Get => Route::Become(Open::Getting),
        Opcode::Action | Opcode::Session | Opcode::UserDefined(_) => Route::Become(gathers_on(
            h.opcode, h.is_final,
        )),
    }
}

// Returns what is open once a packet was turned away: a Put or a Get may be drained.
fn turned_by(s: State, h: Heading) -> Open
    ensures { result ≡ turned_by h.opcode s h }
{
    match h.opcode {
        Opcode::Put | Opcode::Get => turned_open(s, h),
        _ => Open::Nothing,
    }
}

// Returns the way of a packet with nothing open.
#[tactic(auto, unfolding(crate::specs::Route::first_route))]
fn first_route(s: State, h: Heading) -> Route
    ensures { result ≡ first_route s h }
{
    if is_admitted(s, h) {
        admitted_route(s, h)
    } else {
        Route::Become(turned_by(s, h))
    }
}

// Tells whether a packet trails a Put that was too long: it is a Put packet without a Name.
#[tactic(auto, unfolding(packet::specs::FirstByte::same_opcode))]
fn is_trailing(h: Heading) -> bool
    ensures { result ≡ trails_in h }
{
    matches!(h.opcode, Opcode::Put) && !h.has_name
}

// Returns the way of a packet after a Put that was too long, while what trails it is refused.
#[tactic(auto, unfolding(crate::specs::Route::trailing_route))]
fn trailing_route(s: State, h: Heading) -> Route
    ensures { result ≡ trailing_route s h }
{
    if !is_trailing(h) {
        return first_route(s, h);
    }
    if h.is_final {
        return Route::Become(Open::Nothing);
    }
    Route::Become(Open::Trailing)
}

// Returns `route` for the next packet of an operation if the packet has the operation's opcode, `open`; any other interrupts it.
fn next_packet(h: Heading, open: Opcode, route: Route) -> Route
    ensures { result ≡ continued h «open» route }
{
    if same(h.opcode, open) {
        route
    } else {
        Route::Stop
    }
}

// Returns what is open after a packet of a drain.
fn drained(is_final: bool) -> Open
    ensures { result ≡ drained is_final }
{
    if is_final {
        Open::Nothing
    } else {
        Open::Draining
    }
}

// Returns the way of a packet by what is open.
fn inside(s: State, h: Heading) -> Route
    ensures { result ≡ inside_route s.opened s h }
{
    match s.opened {
        Open::Nothing => first_route(s, h),
        Open::Trailing => trailing_route(s, h),
        Open::Putting { srm } => next_packet(
            h,
            Opcode::Put,
            Route::Put {
                first: false,
                srm,
                next: srm,
            },
        ),
        Open::Getting => next_packet(h, Opcode::Get, Route::Become(Open::Getting)),
        Open::Sending => next_packet(h, Opcode::Get, Route::Become(Open::Sending)),
        Open::Gathering(opcode) => next_packet(
            h,
            opcode,
            Route::Become(gathers_on(opcode, h.is_final)),
        ),
        Open::Draining => Route::Become(drained(h.is_final)),
    }
}

// Returns the way of a readable packet: an Abort closes what is open.
#[tactic(auto, unfolding(crate::specs::Route::heading_route, packet::specs::FirstByte::same_opcode))]
pub(crate) fn heading_route(s: State, h: Heading) -> Route
    ensures { result ≡ heading_route s h }
{
    if matches!(h.opcode, Opcode::Abort) {
        return Route::Become(Open::Nothing);
    }
    inside(s, h)
}
