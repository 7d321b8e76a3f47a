// What Connect and Disconnect change of the state (docs/PROTOCOL.md#connection-ids, #disconnect; the source's engine/server.rs): which ids
// are open, the search for a new one, and what the peer said of itself. The source's set of ids has no bound; here 64 are open at once.
ghost use Rattle.std.specs.Prelude.{◌≡◌, ◌+◌, ◌%◌, ◌^◌, ◌<◌, ◌≤◌, true, false, length, take};
ghost use Rattle.packet.specs.Limits.{max_connections};
ghost use Rattle.journal.specs.Ids.{member, taken, without, new_id};
ghost use Rattle.connection.specs.Peer.{at_least255, limited as limitedPeer, authenticated_peer, checked_peer, verified_peer, challenged_peer, srm_peer};
ghost use Rattle.connection.specs.Peer.{added_peer, opened as openedPeer, opens, opening_of, answers, answer_by, cleared_peer, left_peer, closed_tables, linked, disconnected_by};
ghost use Rattle.connection.specs.Reply.{front};
ghost use Rattle.table.specs.Places.{table_length};

use crate::checks::pushed;
use digest::md5::Octets16;
use packet::limits::{MAX_CONNECTIONS, MIN_PACKET};
use table::nonces::counted;
use table::targets::{Target, close_targets, find_place, put_target, unnamed};

// The number that is reserved as an invalid connection id.
const INVALID_ID: u32 = 0xFFFFFFFF;

// What Connect and Disconnect change. The open ids are not here: they are the first `count` numbers of the table store, which the host
// lends to the calls that look at them, so that a state of few bytes goes from call to call.
#[derive(Clone, Copy)]
pub struct Peer {
    pub count: usize,
    // How many nonces the table store remembers, at most 32; nothing clears them.
    pub nonces: usize,
    // The last 64 checks of passwords, a set bit for each wrong one, the latest the lowest bit.
    pub window: u64,
    // The counter from which the search for a new id counts up.
    pub next_connection_id: u32,
    // The largest packet that the peer can receive.
    pub remote_max_packet_length: u16,
    // The session's Single Response Mode (SRM) is on.
    pub srm_enabled: bool,
    // The peer gave the right password.
    pub authenticated: bool,
    // The nonce of the challenge that was sent and not yet answered.
    pub challenge: Option<Octets16>,
}

// An id that the search found.
#[derive(Clone, Copy)]
pub struct NewId {
    pub id: u32,
    // The counter, one past the id.
    pub next: u32,
}

// What the host's answer to a Connect leads to: the peer, with the id that goes in front of the answer.
#[derive(Clone, Copy)]
pub struct Answer {
    pub peer: Peer,
    pub front: Option<u32>,
}

// ---- the open ids

// Tells whether `id` is one of the first `count` numbers.
pub fn is_open(ids: &[u64], count: usize, id: u32) -> bool
    requires { (count ≤ max_connections) × (count ≤ length ids.now) }
    ensures { result ≡ member id (take count ids.now) }
{
    ids[..count].contains(&u64::from(id))
}

// Tells whether the search passes `id` over: it is reserved or open.
fn is_taken(ids: &[u64], count: usize, id: u32) -> bool
    requires { (count ≤ max_connections) × (count ≤ length ids.now) }
    ensures { result ≡ taken (take count ids.now) id }
{
    id == INVALID_ID || is_open(ids, count, id)
}

// Finds the first number that is not open, counting up from the counter, and leaves the counter one past it.
pub fn allocate_connection_id(ids: &[u64], count: usize, counter: u32) -> NewId
    requires { (count ≤ max_connections) × (count ≤ length ids.now) }
    ensures id_value { (result.id ≡ new_id (take count ids.now) counter) × (result.next ≡ (result.id + 1) % 2 ^ 32) }
    ensures unused { taken (take count ids.now) result.id ≡ false }
{
    let mut at = counter;
    // Stays a loop that breaks with what it found, the form that the scope names for this search. `find` would answer an Option, and this search
    // always finds an id.
    let id = loop {
        if !is_taken(ids, count, at) {
            break at;
        }
        at = at.wrapping_add(1);
    };
    NewId {
        id,
        next: id.wrapping_add(1),
    }
}

// Takes `id` out of the first `count` numbers, keeping the order of the others, and returns how many are left.
fn close_id(ids: &mut [u64], count: usize, id: u32) -> usize
    requires { (count ≤ max_connections) × (count ≤ length ids.old) }
    ensures value { result ≡ length (without id (take count ids.old)) }
    ensures store { ids.new ≡ front (without id (take count ids.old)) ids.old }
{
    let mut kept = 0;
    // Stays a loop over an index: it writes at or in front of the place that it reads, and slices have no `retain`.
    for i in 0..count {
        if ids[i] != u64::from(id) {
            ids[kept] = ids[i];
            kept += 1;
        }
    }
    kept
}

// Closes `id`, one of the first `count` numbers of the table store, with its Target, and returns how many are left.
pub fn close_link(tables: &mut [u64], count: usize, id: u32) -> usize
    requires { (count ≤ max_connections) × (table_length ≤ length tables.old) }
    ensures value { result ≡ length (without id (take count tables.old)) }
    ensures store { tables.new ≡ closed_tables id count tables.old }
{
    close_targets(tables, count, id);
    close_id(tables, count, id)
}

// ---- the peer

// Returns `n`, or the smallest limit that a device may name if that is more.
fn at_least_minimum(n: u16) -> u16
    ensures { result ≡ at_least255 n }
{
    n.max(MIN_PACKET)
}

// Sets the peer's limit, which its Connect names.
pub fn limited(peer: Peer, max_packet_length: u16) -> Peer
    ensures { result ≡ limitedPeer peer max_packet_length }
{
    Peer {
        remote_max_packet_length: at_least_minimum(max_packet_length),
        ..peer
    }
}

// Returns the peer with this authentication; the rest stays.
fn with_authentication(peer: Peer, authenticated: bool, challenge: Option<Octets16>) -> Peer
    ensures { result ≡ authenticated_peer peer authenticated challenge }
{
    Peer {
        authenticated,
        challenge,
        ..peer
    }
}

// Returns the peer with one check more in its window; the rest stays.
pub fn with_check(peer: Peer, wrong: bool) -> Peer
    ensures { result ≡ checked_peer peer wrong }
{
    Peer {
        window: pushed(peer.window, wrong),
        ..peer
    }
}

// Marks the peer as authenticated: the password was right, and the challenge is used up.
pub fn verified(peer: Peer) -> Peer
    ensures { result ≡ verified_peer peer }
{
    with_authentication(peer, true, None)
}

// Stores the nonce of a new challenge, which is one more that is remembered; the peer is no longer authenticated.
pub fn challenged(peer: Peer, nonce: Octets16) -> Peer
    ensures { result ≡ challenged_peer peer nonce }
{
    Peer {
        nonces: counted(peer.nonces),
        ..with_authentication(peer, false, Some(nonce))
    }
}

// Returns the peer with Single Response Mode (SRM) on or off; the rest stays.
fn with_srm(peer: Peer, srm: bool) -> Peer
    ensures { result ≡ srm_peer peer srm }
{
    Peer {
        srm_enabled: srm,
        ..peer
    }
}

// Returns the peer with one id more, the counter `next`, and SRM.
fn with_id(peer: Peer, srm: bool, next: u32) -> Peer
    requires { peer.count < max_connections }
    ensures { result ≡ added_peer peer srm next }
{
    Peer {
        count: peer.count + 1,
        next_connection_id: next,
        srm_enabled: srm,
        ..peer
    }
}

// Opens `id` if it is not open yet, behind the ids of `tables` that are. A 65th is not opened, and there is no peer with it. Open or not, it
// takes `target`.
pub fn opened(
    peer: Peer,
    srm: bool,
    id: u32,
    next: u32,
    target: Target,
    tables: &mut [u64],
) -> Option<Peer>
    requires { (peer.count ≤ max_connections) × (table_length ≤ length tables.old) }
    ensures { opens result tables.new
        ≡ opening_of tables.old (openedPeer peer tables.old srm id next target) }
{
    let count = peer.count;
    if let Some(place) = find_place(tables, count, id) {
        put_target(tables, place, target);
        return Some(with_srm(peer, srm));
    }
    if count >= MAX_CONNECTIONS {
        return None;
    }
    tables[count] = u64::from(id);
    put_target(tables, count, target);
    Some(with_id(peer, srm, next))
}

// Opens the id of a Connect that succeeded: the one that the host's answer names, else, for a Target header, a new one. `target` is the
// Target that the header gives, if there is one. If the id is a 65th, there is no answer.
pub fn opened_for(
    peer: Peer,
    srm: bool,
    given: Option<u32>,
    target: Option<Target>,
    tables: &mut [u64],
) -> Option<Answer>
    requires { (peer.count ≤ max_connections) × (table_length ≤ length tables.old) }
    ensures { answers result tables.new ≡ answer_by peer tables.old srm given target }
{
    if let Some(id) = given {
        let asked = target.unwrap_or(unnamed());
        let with = opened(peer, srm, id, peer.next_connection_id, asked, tables)?;
        return Some(Answer {
            peer: with,
            front: None,
        });
    }
    let Some(target) = target else {
        return Some(Answer {
            peer: with_srm(peer, srm),
            front: None,
        });
    };
    let found = allocate_connection_id(tables, peer.count, peer.next_connection_id);
    let with = opened(peer, srm, found.id, found.next, target, tables)?;
    Some(Answer {
        peer: with,
        front: Some(found.id),
    })
}

// Clears all connections, SRM, authentication and the peer's limit; the counter, the challenge, the window and the nonces stay.
fn cleared(peer: Peer) -> Peer
    ensures { result ≡ cleared_peer peer }
{
    Peer {
        count: 0,
        remote_max_packet_length: MIN_PACKET,
        srm_enabled: false,
        authenticated: false,
        ..peer
    }
}

// Returns the peer with `count` ids left open; if none is left, all is cleared.
pub fn with_left(peer: Peer, count: usize) -> Peer
    ensures { result ≡ left_peer peer count }
{
    if count == 0 {
        return cleared(peer);
    }
    Peer { count, ..peer }
}

// Closes the id that a Disconnect names. If it names none, or the last closes, all is cleared.
pub fn disconnected(peer: Peer, named: Option<u32>, tables: &mut [u64]) -> Peer
    requires { (peer.count ≤ max_connections) × (table_length ≤ length tables.old) }
    ensures { linked result tables.new ≡ disconnected_by peer tables.old named }
{
    let Some(id) = named else {
        return cleared(peer);
    };
    let count = close_link(tables, peer.count, id);
    with_left(peer, count)
}
