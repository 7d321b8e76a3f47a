// The entries of a log that are no packets (docs/PROTOCOL.md#journal): what the host answers, replies that were sent, checks of passwords, and
// the end.
ghost use Rattle.std.specs.Prelude.{◌≡◌, false, ◌≤◌, length};
ghost use Rattle.packet.specs.Header.{first};
ghost use Rattle.packet.specs.HeaderIds as header_id;
ghost use Rattle.packet.specs.Limits.{max_connections};
ghost use Rattle.table.specs.Places.{table_length};
ghost use Rattle.connection.specs.Peer.{id_in, authenticated_peer};
ghost use Rattle.connection.specs.Pieces.{headers_from};
ghost use Rattle.filing.specs.Kinds.{ids_in};
ghost use Rattle.journal_code.specs.Answer.{linked_in, is_nothing, tabled, connected_step, reply_step, answered_inside, answered_step, object_in, object_state, sent_object, sent_in, sent_state, checked_peers, checked_state, nonce_state, remaining, closed_all, closed_step, ended_state};

use crate::route::is_srm_on;
use crate::state::{Last, Open, State, ended_with, opening, quiet, standing_by};
use connection::peer::{
    Peer, close_link, disconnected, opened_for, verified, with_check, with_left,
};
use incoming::survey::survey_headers;
use packet::header::be32_at;
use packet::limits::MAX_CONNECTIONS;
use packet::response::{CONTINUE_BYTE, is_success};
use table::TABLE_LENGTH;
use table::targets::Target;

// The numbers with which a session ends.
const DISCONNECTED: u8 = 1;

const TRUNCATED: u8 = 2;

const OTHER_OPERATION: u8 = 5;

// Tells whether the table store has room for the ids that are open.
#[tactic(auto, unfolding(crate::specs::Answer::linked_in))]
fn is_linked(count: usize, tables: usize) -> bool
    ensures { result ≡ linked_in count tables }
{
    count <= MAX_CONNECTIONS && tables >= TABLE_LENGTH
}

// Returns the first ConnectionID among the headers `hs`, if there is one and all can be read.
#[tactic(auto, using(crate::proofs::Packets::id_given_lem, crate::proofs::Packets::id_missing))]
fn first_id(hs: &[u8]) -> Option<u32>
    ensures { result ≡ id_in (first header_id.connection_id (headers_from hs.now 0)) }
{
    let v = survey_headers(hs, 0);
    if v.has_id { Some(v.id) } else { None }
}

// Answers a Connect: a success opens the id that the answer names, else, for a Target, a new one.
#[tactic(auto, unfolding(crate::specs::Answer::connected_step))]
fn connect(
    s: State,
    enable: bool,
    code: u8,
    target: Option<Target>,
    hs: &[u8],
    tables: &mut [u64],
) -> State
    requires { (s.peer.count ≤ max_connections) × (table_length ≤ length tables.old) }
    ensures { tabled result tables.new
        ≡ connected_step s code hs.now enable target tables.old }
{
    if !is_success(code) {
        return quiet(s);
    }
    let srm = is_srm_on(s, enable);
    let given = first_id(hs);
    match opened_for(s.peer, srm, given, target, tables) {
        Some(answer) => standing_by(s, answer.peer),
        None => quiet(s),
    }
}

// Answers the last packet with nothing open.
fn reply_to(s: State, code: u8, hs: &[u8], tables: &mut [u64]) -> State
    requires { (s.peer.count ≤ max_connections) × (table_length ≤ length tables.old) }
    ensures { tabled result tables.new ≡ reply_step s.last s code hs.now tables.old }
{
    let last = s.last;
    match last {
        Last::Other => quiet(s),
        Last::Connect { enable, target } => connect(s, enable, code, target, hs, tables),
        Last::Disconnect(named) => {
            let peer = disconnected(s.peer, named, tables);
            standing_by(s, peer)
        }
    }
}

// The host answered with a reply: a code and the bytes of headers. With a table store that is too short nothing changes.
#[tactic(auto, using(crate::proofs::Calls::linked), unfolding(crate::specs::Answer::answered_step))]
pub fn answered(s: State, code: u8, hs: &[u8], tables: &mut [u64]) -> State
    ensures { tabled result tables.new ≡ answered_step s code hs.now tables.old }
{
    if s.ended {
        return quiet(s);
    }
    if !is_linked(s.peer.count, tables.len()) {
        return quiet(s);
    }
    match s.opened {
        Open::Nothing => reply_to(s, code, hs, tables),
        Open::Getting => opening(s, Open::Nothing),
        _ => quiet(s),
    }
}

// The host answered a Get with an object.
#[tactic(auto, unfolding(crate::specs::Answer::object_state))]
pub fn object(s: State) -> State
    ensures { result ≡ object_state s }
{
    if s.ended {
        return quiet(s);
    }
    match s.opened {
        Open::Getting => opening(s, Open::Sending),
        _ => quiet(s),
    }
}

// A reply was sent, and `byte` is its first byte. After an end without a number it was the reply to a packet of another operation.
#[tactic(auto, unfolding(crate::specs::Answer::sent_state, crate::specs::Answer::sent_object))]
pub fn sent(s: State, byte: u8) -> State
    ensures { result ≡ sent_state s byte }
{
    if s.ended {
        return if s.number == 0 {
            ended_with(s, OTHER_OPERATION)
        } else {
            quiet(s)
        };
    }
    match s.opened {
        Open::Sending if byte != CONTINUE_BYTE => opening(s, Open::Nothing),
        _ => quiet(s),
    }
}

// Returns the peer once a password was checked.
fn checked_peer(peer: Peer, right: bool) -> Peer
    ensures { result ≡ checked_peers peer right }
{
    if right {
        return verified(with_check(peer, false));
    }
    with_check(peer, true)
}

// A password was checked, and was right or not.
#[tactic(auto, unfolding(crate::specs::Answer::checked_state))]
pub fn checked(s: State, right: bool) -> State
    ensures { result ≡ checked_state s right }
{
    if s.ended {
        return quiet(s);
    }
    standing_by(s, checked_peer(s.peer, right))
}

// Returns the peer without a password.
#[tactic(auto, unfolding(connection::specs::Peer::peer_with))]
fn unauthenticated(peer: Peer) -> Peer
    ensures { result ≡ authenticated_peer peer false peer.challenge }
{
    Peer {
        authenticated: false,
        ..peer
    }
}

// A challenge was made: the password is given no longer. No record depends on its nonce.
#[tactic(auto, unfolding(crate::specs::Answer::nonce_state))]
pub fn nonce(s: State) -> State
    ensures { result ≡ nonce_state s }
{
    if s.ended {
        return quiet(s);
    }
    standing_by(s, unauthenticated(s.peer))
}

// Closes the ids whose bytes `ids` are, four each, of the first `count` numbers of `tables`, and returns how many are left.
#[tactic(auto, using(crate::proofs::Closes::begins, crate::proofs::Closes::done))]
fn close_all(ids: &[u8], tables: &mut [u64], count: usize) -> usize
    requires { (count ≤ max_connections) × (table_length ≤ length tables.old) }
    ensures { remaining result tables.new ≡ closed_all (ids_in ids.now) count tables.old }
{
    let mut left = count;
    for id in ids.chunks_exact(4) {
        left = close_link(tables, left, be32_at(id, 0));
    }
    left
}

// The host closed the ids whose bytes `ids` are, four each, together. With a table store that is too short nothing changes.
pub fn closed(s: State, ids: &[u8], tables: &mut [u64]) -> State
    ensures { tabled result tables.new ≡ closed_step s (ids_in ids.now) tables.old }
{
    if s.ended {
        return quiet(s);
    }
    if !is_linked(s.peer.count, tables.len()) {
        return quiet(s);
    }
    if ids.len() < 4 {
        return quiet(s);
    }
    let left = close_all(ids, tables, s.peer.count);
    standing_by(s, with_left(s.peer, left))
}

// The peer's stream ended, between packets or inside one.
#[tactic(auto, unfolding(crate::specs::Answer::ended_state))]
pub fn stream_ended(s: State) -> State
    ensures { result ≡ ended_state s }
{
    if s.ended {
        return quiet(s);
    }
    if s.begun == 0 {
        return ended_with(s, DISCONNECTED);
    }
    ended_with(s, TRUNCATED)
}
