// What a call leads to: more bytes are wanted, the host is asked, a reply is made, or the engine ends.
ghost use Rattle.std.specs.Prelude.{[], ◌≡◌, eqb, ◌≤◌, ◌<◌, length};
ghost use Rattle.packet.specs.Limits.{max_packet};
ghost use Rattle.model.specs.Step.{engine_with};
ghost use Rattle.engine.specs.Step.{wants_plan, asks_plan, ends_plan, code_plan, code_keeping_plan, continue_plan, small_bytes, took_by, written, carried, sent_plan, replies_by, fields_plan};
ghost use Rattle.base.specs.Pick.{pick};
ghost use Rattle.connection.specs.Peer.{fresh_peer};
ghost use Rattle.table.specs.Targets.{unnamed as unnamedTarget};
ghost use Rattle.server.specs.declared.End.TheVariants as end;
ghost use Rattle.connection.specs.Reply.{fields_of, front};

use connection::peer::Peer;
use connection::reply::{put_connect_prefix, put_continue, put_reply_code, send, send_connect};
use packet::limits::MIN_PACKET;
use packet::response::{CONTINUE_BYTE, to_byte};
use server::{Await, CallResult, End, Engine, HostRequest, Operation, Outcome, Settings};
use table::targets::{Target, unnamed};

// A reply of a few bytes, written when the plan is carried out.
#[derive(Clone, Copy)]
pub(crate) enum ShortReply {
    Silent,
    // The first byte, with no headers.
    Byte(u8),
    // Continue with the grant of Single Response Mode (SRM).
    Grant,
    // The first byte and Connect's fields with the engine's own limit, and no headers.
    Fields { byte: u8, limit: u16 },
}

// What a call leads to, decided without the stores: the next state, what the call answers, and a short reply if one is due.
#[derive(Clone, Copy)]
pub(crate) struct Plan {
    pub engine: Engine,
    pub outcome: Outcome,
    pub small: ShortReply,
}

// Returns the peer at the start: no id is open, the id counter stands at 1, and the client's packet limit is the smallest there is.
#[tactic(auto, unfolding(connection::specs::Peer::peer_with))]
fn fresh_peer() -> Peer
    ensures { result ≡ fresh_peer }
{
    Peer {
        count: 0,
        nonces: 0,
        window: 0,
        next_connection_id: 1,
        remote_max_packet_length: MIN_PACKET,
        srm_enabled: false,
        authenticated: false,
        challenge: None,
    }
}

// Returns an engine at its start. `awaits` is bytes, or nothing if the start is refused.
#[tactic(auto, unfolding(model::specs::Step::engine_with))]
pub(crate) fn fresh(settings: Settings, awaits: Await) -> Engine
    ensures { result ≡ engine_with settings fresh_peer Operation.Nothing awaits 0 0 unnamedTarget }
{
    Engine {
        settings,
        peer: fresh_peer(),
        operation: Operation::Nothing,
        awaits,
        begun: 0,
        length: 0,
        target: unnamed(),
    }
}

// Plans that the engine wants bytes, with `operation` open.
#[tactic(auto, unfolding(crate::specs::Step::wants_plan, model::specs::Step::engine_with))]
pub(crate) fn wants(e: Engine, peer: Peer, operation: Operation) -> Plan
    ensures { result ≡ wants_plan e peer operation }
{
    Plan {
        engine: Engine {
            peer,
            operation,
            awaits: Await::Bytes,
            begun: 0,
            ..e
        },
        outcome: Outcome::WantsBytes,
        small: ShortReply::Silent,
    }
}

// Plans that the engine asks the host with `request`, with `operation` open.
#[tactic(auto, unfolding(crate::specs::Step::asks_plan, model::specs::Step::engine_with))]
pub(crate) fn asks(
    e: Engine,
    peer: Peer,
    operation: Operation,
    awaits: Await,
    request: HostRequest,
) -> Plan
    ensures { result ≡ asks_plan e peer operation awaits request }
{
    Plan {
        engine: Engine {
            peer,
            operation,
            awaits,
            begun: 0,
            ..e
        },
        outcome: Outcome::Request(request),
        small: ShortReply::Silent,
    }
}

// Plans that the engine ends with `end`.
#[tactic(auto, unfolding(crate::specs::Step::ends_plan, model::specs::Step::engine_with))]
pub(crate) fn ends(e: Engine, peer: Peer, end: End) -> Plan
    ensures { result ≡ ends_plan e peer end }
{
    Plan {
        engine: Engine {
            peer,
            operation: Operation::Nothing,
            awaits: Await::Nothing,
            begun: 0,
            ..e
        },
        outcome: Outcome::End(end),
        small: ShortReply::Silent,
    }
}

// Returns how the engine ends at the end of the stream, with `begun` bytes of a packet in the packet store.
// Stays beside the client's of that name: each names the ends of its own side.
pub(crate) fn stream_end(begun: usize) -> End
    ensures { result ≡ pick (eqb begun 0) end.Disconnected end.Truncated }
{
    if begun == 0 {
        return End::Disconnected;
    }
    End::Truncated
}

// Plans a reply of the first byte `byte` and no headers, with no operation open afterwards.
#[tactic(auto, unfolding(crate::specs::Step::code_plan, model::specs::Step::engine_with))]
pub(crate) fn code(e: Engine, peer: Peer, awaits: Await, byte: u8) -> Plan
    ensures { result ≡ code_plan e peer awaits byte }
{
    Plan {
        engine: Engine {
            peer,
            operation: Operation::Nothing,
            awaits,
            begun: 0,
            ..e
        },
        outcome: Outcome::Reply { length: 3 },
        small: ShortReply::Byte(byte),
    }
}

// Plans a reply of `code`, Connect's fields and no headers.
#[tactic(auto, unfolding(crate::specs::Step::fields_plan, model::specs::Step::engine_with))]
pub(crate) fn fields(e: Engine, peer: Peer, code: u8) -> Plan
    ensures { result ≡ fields_plan e peer code }
{
    Plan {
        engine: Engine {
            peer,
            operation: Operation::Nothing,
            awaits: Await::Taken,
            begun: 0,
            ..e
        },
        outcome: Outcome::Reply { length: 7 },
        small: ShortReply::Fields {
            byte: to_byte(code),
            limit: e.settings.max_packet_length,
        },
    }
}

// Plans a reply of the first byte `byte` and no headers, with `operation` open afterwards.
#[tactic(auto, unfolding(crate::specs::Step::code_keeping_plan, model::specs::Step::engine_with))]
pub(crate) fn code_keeping(e: Engine, operation: Operation, byte: u8) -> Plan
    ensures { result ≡ code_keeping_plan e operation byte }
{
    let small = ShortReply::Byte(byte);
    Plan {
        engine: Engine {
            operation,
            awaits: Await::Taken,
            begun: 0,
            ..e
        },
        outcome: Outcome::Reply { length: 3 },
        small,
    }
}

// Plans a Continue, with the grant of SRM if `grant` is set. The operation goes on.
#[tactic(auto, unfolding(crate::specs::Step::continue_plan, model::specs::Step::engine_with))]
pub(crate) fn continues(e: Engine, operation: Operation, grant: bool) -> Plan
    ensures { result ≡ continue_plan e operation grant }
{
    let engine = Engine {
        operation,
        awaits: Await::Taken,
        begun: 0,
        ..e
    };
    if grant {
        return Plan {
            engine,
            outcome: Outcome::Reply { length: 5 },
            small: ShortReply::Grant,
        };
    }
    Plan {
        engine,
        outcome: Outcome::Reply { length: 3 },
        small: ShortReply::Byte(CONTINUE_BYTE),
    }
}

// Writes a short reply to the front of the reply store.
pub(crate) fn write_short_reply(small: ShortReply, reply: &mut [u8])
    requires { 7 ≤ length reply.old }
    ensures { reply.new ≡ front (small_bytes small) reply.old }
{
    match small {
        ShortReply::Silent => {}
        ShortReply::Byte(byte) => {
            put_reply_code(reply, byte);
        }
        ShortReply::Grant => {
            put_continue(reply, true);
        }
        ShortReply::Fields { byte, limit } => {
            put_connect_prefix(reply, byte, 7, limit);
        }
    }
}

// Returns the result of the plan `p` for a call that takes no bytes. The plan's short reply is not written here.
pub(crate) fn took(p: Plan) -> CallResult
    ensures { result ≡ took_by p }
{
    CallResult {
        engine: p.engine,
        taken: 0,
        outcome: p.outcome,
    }
}

// Carries out a plan: writes its short reply and returns the rest.
pub(crate) fn carry_out(p: Plan, reply: &mut [u8]) -> CallResult
    requires { 7 ≤ length reply.old }
    ensures { written result reply.new ≡ carried p reply.old }
{
    write_short_reply(p.small, reply);
    took(p)
}

// Plans what follows the writing of a reply: the host sends it, or the engine ends with `ReplyTooLarge`.
#[tactic(auto, unfolding(crate::specs::Step::sent_plan, crate::specs::Step::ends_plan, model::specs::Step::engine_with))]
pub(crate) fn sent_plan(e: Engine, peer: Peer, sent: Option<usize>) -> Plan
    ensures { result ≡ sent_plan e peer sent }
{
    match sent {
        None => ends(e, peer, End::ReplyTooLarge),
        Some(length) => Plan {
            engine: Engine {
                peer,
                operation: Operation::Nothing,
                awaits: Await::Taken,
                begun: 0,
                ..e
            },
            outcome: Outcome::Reply { length },
            small: ShortReply::Silent,
        },
    }
}

// Replies with a code and headers.
pub(crate) fn sends(
    e: Engine,
    peer: Peer,
    code: u8,
    header_bytes: &[u8],
    reply: &mut [u8],
) -> CallResult
    requires { max_packet ≤ length reply.old }
    ensures { written result reply.new ≡ replies_by e peer code [] header_bytes.now reply.old }
{
    let remote = peer.remote_max_packet_length as usize;
    let sent = send(reply, remote, code, header_bytes);
    took(sent_plan(e, peer, sent))
}

// Replies with a code, Connect's fields and headers.
pub(crate) fn sends_connect(
    e: Engine,
    peer: Peer,
    code: u8,
    header_bytes: &[u8],
    reply: &mut [u8],
) -> CallResult
    requires { max_packet ≤ length reply.old }
    ensures { written result reply.new
        ≡ replies_by e peer code (fields_of e.settings.max_packet_length) header_bytes.now reply.old }
{
    let remote = peer.remote_max_packet_length as usize;
    let limit = e.settings.max_packet_length;
    let sent = send_connect(reply, remote, code, limit, header_bytes);
    took(sent_plan(e, peer, sent))
}
