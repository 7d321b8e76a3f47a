// Packets from the peer (docs/PROTOCOL.md#journal): the entry `received` of a log.
ghost use Rattle.std.specs.Prelude.{◌≡◌, true, ◌≤◌, ◌<◌, length};
ghost use Rattle.packet.specs.Limits.{max_packet};
ghost use Rattle.packet.specs.HeaderList.{readable_from};
ghost use Rattle.table.specs.Places.{table_length};
ghost use Rattle.connection.specs.Pieces.{headers_from};
ghost use Rattle.journal_code.specs.Heading.{last_by};
ghost use Rattle.journal_code.specs.Route.{heading_route};
ghost use Rattle.journal_code.specs.Receive.{stopped_in, peer_after, marked_by, target_after, after_packet, going_on, put_state, unreadable_state, begun_of, step, act_step, packet_step, came, received_step};

use crate::heading::{Heading, read_heading};
use crate::route::{Route, heading_route};
use crate::state::{
    Last, Lengths, Open, State, coming_to, ended_with, is_busy, is_fitting, moved,
    nothing_gathered, quiet,
};
use connection::checks::too_many;
use connection::peer::{Peer, with_check};
use incoming::frame::{Frame, read_packet};
use incoming::gather::{Gathered, Keep, gather};
use packet::opcode::Opcode;
use table::targets::{Target, unnamed};

// The numbers with which a session ends.
const LENGTH_TOO_SMALL: u8 = 3;

const UNREADABLE: u8 = 4;

const HEADERS_TOO_LARGE: u8 = 6;

// Tells whether a Connect is stopped (docs/PROTOCOL.md#eight-wrong).
fn is_stopped(s: State, h: Heading) -> bool
    ensures { result ≡ stopped_in s h }
{
    s.settings.authentication && too_many(s.peer.window) && h.has_response
}

// Returns the peer after a packet: a Connect that is stopped joins the checks.
#[tactic(auto, unfolding(crate::specs::Receive::peer_after, packet::specs::FirstByte::same_opcode))]
fn peer_after(s: State, h: Heading) -> Peer
    ensures { result ≡ peer_after s h }
{
    if matches!(h.opcode, Opcode::Connect) && !is_busy(s.opened) && is_stopped(s, h) {
        with_check(s.peer, false)
    } else {
        s.peer
    }
}

// Tells whether a packet goes under the mark wherever it comes.
#[tactic(auto, unfolding(packet::specs::FirstByte::same_opcode))]
fn is_marked(opcode: Opcode) -> bool
    ensures { result ≡ marked_by opcode }
{
    matches!(opcode, Opcode::Connect | Opcode::Abort)
}

// Returns the Target under which a packet goes: between operations that of the id that it names, inside one that of its first packet.
#[tactic(auto, unfolding(crate::specs::Receive::target_after))]
fn target_after(s: State, h: Heading) -> Target
    ensures { result ≡ target_after s h }
{
    if is_marked(h.opcode) {
        unnamed()
    } else if is_busy(s.opened) {
        s.target
    } else {
        h.under
    }
}

// Returns what of a packet decides what the host's reply to it does.
fn last_of(h: Heading) -> Last
    ensures { result ≡ last_by h.opcode h }
{
    match h.opcode {
        Opcode::Connect => Last::Connect {
            enable: h.enable,
            target: h.target,
        },
        Opcode::Disconnect => Last::Disconnect(h.named),
        _ => Last::Other,
    }
}

// Returns the state after a packet that was read, and left `opened` open.
fn after_packet(s: State, h: Heading, opened: Open, gathered: Gathered, handed: bool) -> State
    ensures { result ≡ after_packet s h opened gathered handed }
{
    moved(
        s,
        peer_after(s, h),
        target_after(s, h),
        last_of(h),
        opened,
        gathered,
        handed,
    )
}

// Returns what is open after a packet of a Put that is not final, with `going` if the Put goes on: past the limit it is closed, unless Single
// Response Mode (SRM) is on.
fn put_open(over: bool, s: State, srm: bool, going: Open) -> Open
    ensures { result ≡ going_on s over srm going }
{
    if !over || srm {
        going
    } else if s.settings.refuses {
        Open::Trailing
    } else {
        Open::Nothing
    }
}

// Returns the state after a packet of a Put, with which `g` is gathered. Its final packet hands the record over if the body is within the
// limit.
#[tactic(auto, unfolding(crate::specs::Receive::put_state))]
fn put_state(s: State, srm: bool, h: Heading, next: bool, g: Gathered) -> State
    ensures { result ≡ put_state s h srm next g }
{
    if g.full {
        return ended_with(s, HEADERS_TOO_LARGE);
    }
    if h.is_final {
        return after_packet(s, h, Open::Nothing, g, !g.over);
    }
    after_packet(
        s,
        h,
        put_open(g.over, s, srm, Open::Putting { srm: next }),
        g,
        false,
    )
}

// Returns the state after a packet that cannot be read: it ends the session if an operation is open.
fn unreadable(s: State) -> State
    ensures { result ≡ unreadable_state s }
{
    if is_busy(s.opened) {
        return ended_with(s, UNREADABLE);
    }
    moved(
        s,
        s.peer,
        s.target,
        Last::Other,
        s.opened,
        s.gathered,
        false,
    )
}

// Returns what was gathered before a packet of a Put, the first or a later one.
fn begun_of(s: State, first: bool) -> Gathered
    ensures value { result ≡ begun_of s first }
    ensures within { (s.gathered.kept ≤ max_packet → result.kept ≤ max_packet)
        × (s.gathered.body ≤ s.settings.limit → result.body ≤ s.settings.limit) }
{
    if first {
        nothing_gathered()
    } else {
        s.gathered
    }
}

// Acts on a packet that was read.
fn act(s: State, h: Heading, p: &[u8], headers: &mut [u8], body: &mut [u8]) -> State
    requires { (readable_from p.now h.headers ≡ true) × (max_packet ≤ length headers.old) × (s.settings.limit ≤ length body.old)
        × (s.gathered.kept ≤ max_packet) × (s.gathered.body ≤ s.settings.limit) }
    ensures { step result headers.new body.new
        ≡ act_step (heading_route s h) s h (headers_from p.now h.headers) headers.old body.old }
{
    match heading_route(s, h) {
        Route::Stop => ended_with(s, 0),
        Route::Become(opened) => after_packet(s, h, opened, s.gathered, false),
        Route::Put { first, srm, next } => {
            let begun = begun_of(s, first);
            let g = gather(
                p,
                h.headers,
                Keep::Put,
                s.settings.limit,
                begun,
                headers,
                body,
            );
            put_state(s, srm, h, next, g)
        }
    }
}

// Reads a whole packet.
fn take_packet(s: State, p: &[u8], tables: &[u64], headers: &mut [u8], body: &mut [u8]) -> State
    requires { (s.peer.count ≤ 64) × (table_length ≤ length tables.now) × (max_packet ≤ length headers.old)
        × (s.settings.limit ≤ length body.old) × (s.gathered.kept ≤ max_packet) × (s.gathered.body ≤ s.settings.limit) }
    ensures { step result headers.new body.new
        ≡ packet_step s p.now tables.now headers.old body.old }
{
    match read_heading(p, tables, s.peer.count) {
        Some(h) => act(s, h, p, headers, body),
        None => unreadable(s),
    }
}

// Takes bytes from the peer, a packet or some of one, up to the packet's end. After the session's end, or with stores that are too short,
// nothing changes.
pub fn received(
    s: State,
    input: &[u8],
    packet: &mut [u8],
    headers: &mut [u8],
    body: &mut [u8],
    tables: &[u64],
) -> State
    ensures { came result packet.new headers.new body.new
        ≡ received_step s input.now packet.old headers.old body.old tables.now }
{
    if s.ended {
        return quiet(s);
    }
    let lengths = Lengths {
        packet: packet.len(),
        headers: headers.len(),
        body: body.len(),
        tables: tables.len(),
    };
    if !is_fitting(s, lengths) {
        return quiet(s);
    }
    let f = read_packet(s.begun, 0, input, packet);
    match f.frame {
        Frame::More => coming_to(s, f.begun),
        Frame::Short => ended_with(s, LENGTH_TOO_SMALL),
        Frame::Whole => take_packet(s, &packet[..f.begun], tables, headers, body),
    }
}
