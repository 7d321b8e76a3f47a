// The object of a Get, sent packet by packet (the response phase of the source's `handle_get`), and what follows each reply.
ghost use Rattle.std.specs.Prelude.{◌≡◌, List, ◌≤◌, ℕ, length, true, ◌||◌};
ghost use Rattle.packet.specs.Limits.{max_packet};
ghost use Rattle.outgoing.specs.Object.{next_packet};
ghost use Rattle.model.specs.Step.{capacity_of, stores, limit_of};
ghost use Rattle.engine.specs.Step.{written, planned};
ghost use Rattle.engine.specs.Object.{sending_on, packet_plan, plan_made, object_plan, packet_sent, follows_turn, goes_turn, turn_of, turn_acts};
ghost use Rattle.model.specs.Guard.{sound_operation};
ghost use Rattle.model.specs.Object.{object_of};

use crate::step::{Plan, ShortReply, asks, carry_out, code, ends, wants};
use outgoing::object::{Next, NextPacket, Outgoing, next_packet};
use packet::response::INTERNAL_SERVER_ERROR_BYTE;
use server::{Await, CallResult, End, Engine, HostRequest, Operation, Outcome};

// Returns the operation that is open after a packet of an object: none after the `last` packet.
fn sending(k: NextPacket, last: bool, srm: bool, wait: bool) -> Operation
    ensures { result ≡ sending_on k last srm wait }
{
    if last {
        return Operation::Nothing;
    }
    Operation::Sending {
        outgoing: k.outgoing,
        chunk: k.chunk,
        srm,
        wait,
    }
}

// Plans a packet of an object: the engine replies with it, or asks the host for body bytes first. If a header is too long for any packet,
// the engine replies with 0x50 and the Get ends.
#[tactic(auto, unfolding(model::specs::Step::engine_with, crate::specs::Object::packet_plan))]
pub(crate) fn packet_plan(e: Engine, srm: bool, wait: bool, k: NextPacket) -> Plan
    ensures { result ≡ packet_plan e srm wait k }
{
    match k.next {
        Next::Send { length, last } => Plan {
            engine: Engine {
                operation: sending(k, last, srm, wait),
                awaits: Await::Taken,
                begun: 0,
                ..e
            },
            outcome: Outcome::Reply { length },
            small: ShortReply::Silent,
        },
        Next::Read => asks(
            e,
            e.peer,
            sending(k, false, srm, wait),
            Await::Body,
            HostRequest::Read { room: k.chunk.room },
        ),
        Next::TooLarge => code(e, e.peer, Await::Taken, INTERNAL_SERVER_ERROR_BYTE),
    }
}

// Lays the next packet of an object in the reply store and plans what follows; or plans the read that the packet needs first.
pub(crate) fn object_plan(
    e: Engine,
    o: Outgoing,
    srm: bool,
    wait: bool,
    headers: &[u8],
    reply: &mut [u8],
) -> Plan
    requires { (255 ≤ e.peer.remote_max_packet_length) × (o.total ≤ length headers.now) × (max_packet ≤ length reply.old) }
    ensures { plan_made result reply.new
        ≡ object_plan e srm wait (next_packet (capacity_of e) o headers.now reply.old) }
{
    let capacity = e.peer.remote_max_packet_length as usize - 3;
    packet_plan(e, srm, wait, next_packet(capacity, o, headers, reply))
}

// Sends the next packet of an object, or asks for the body bytes that it needs first.
pub(crate) fn sends_next(
    e: Engine,
    o: Outgoing,
    srm: bool,
    wait: bool,
    headers: &[u8],
    reply: &mut [u8],
) -> CallResult
    requires { (255 ≤ e.peer.remote_max_packet_length) × (o.total ≤ length headers.now) × (max_packet ≤ length reply.old) }
    ensures { written result reply.new
        ≡ packet_sent e srm wait (next_packet (capacity_of e) o headers.now reply.old) }
{
    let capacity = e.peer.remote_max_packet_length as usize - 3;
    let k = next_packet(capacity, o, headers, reply);
    carry_out(packet_plan(e, srm, wait, k), reply)
}

// Returns an object before its first packet, with `total` bytes of headers. `lead` puts the grant of Single Response Mode (SRM) in front of
// the headers, if the engine did not grant SRM with a Continue before.
pub(crate) fn object_of(total: usize, lead: bool, has_body: bool) -> Outgoing
    ensures { result ≡ object_of total lead has_body }
{
    Outgoing {
        total,
        sent: 0,
        lead,
        has_body,
        has_pending: false,
        pending: 0,
    }
}

// What the engine does once the host has sent the reply.
// Stays an enum of its own: three things may follow, and an Option of an Option would not name them.
#[derive(Clone, Copy)]
enum Turn {
    Send {
        outgoing: Outgoing,
        srm: bool,
        wait: bool,
    },
    Wait,
    End,
}

// Returns what follows a packet of an object. Under SRM the engine sends the next one at once, unless the last request asked to wait.
fn follows(outgoing: Outgoing, srm: bool, wait: bool) -> Turn
    ensures { result ≡ follows_turn outgoing srm wait }
{
    if srm && !wait {
        return Turn::Send {
            outgoing,
            srm,
            wait,
        };
    }
    Turn::Wait
}

// Returns what follows a reply by the operation that is open: only a packet of an object can follow at once.
fn goes_on(operation: Operation) -> Turn
    ensures { result ≡ goes_turn operation }
{
    match operation {
        Operation::Sending {
            outgoing,
            srm,
            wait,
            ..
        } => follows(outgoing, srm, wait),
        _ => Turn::Wait,
    }
}

// Returns what follows the reply. If the reply was the last one, the engine ends.
fn next_turn(e: Engine) -> Turn
    ensures { result ≡ turn_of e }
{
    match e.awaits {
        Await::Taken => goes_on(e.operation),
        _ => Turn::End,
    }
}

// Plans what follows a reply that was taken. After the reply to an interrupting packet the engine ends with `OtherOperation`.
pub(crate) fn turn_plan(e: Engine, headers: &[u8], reply: &mut [u8]) -> Plan
    requires { (255 ≤ e.peer.remote_max_packet_length) × (sound_operation (limit_of e) e.operation ≡ true)
        × (max_packet ≤ length headers.now) × (max_packet ≤ length reply.old) }
    ensures { (q b : List ℕ) → planned result (stores q headers.now b reply.new)
        ≡ turn_acts (turn_of e) e (stores q headers.now b reply.old) }
{
    match next_turn(e) {
        Turn::Send {
            outgoing,
            srm,
            wait,
        } => object_plan(e, outgoing, srm, wait, headers, reply),
        Turn::Wait => wants(e, e.peer, e.operation),
        Turn::End => ends(e, e.peer, End::OtherOperation),
    }
}
