// Connections that the host closes together, all or none (docs/PROTOCOL.md#closing-several). The source has no such call.
ghost use Rattle.std.specs.Prelude.{◌≡◌, ◌≤◌, length, take, drop};
ghost use Rattle.table.specs.Places.{table_length};
ghost use Rattle.packet.specs.Limits.{max_connections};
ghost use Rattle.journal.specs.Ids.{member, all_open, repeats};
ghost use Rattle.model.specs.Close.{remaining, closed_all, goes_on_with};
ghost use Rattle.engine.specs.Close.{guarded_close, judged_close, closed_by};

use crate::dispatch::is_busy;
use crate::guard::is_sound;
use connection::peer::{Peer, close_link, is_open, with_left};
use packet::limits::MAX_CONNECTIONS;
use server::{Await, CallResult, Engine, Outcome, Refusal};
use table::TABLE_LENGTH;

// Returns the refusal of the call by the state and by the length of the table store, or says that it may proceed: bytes must be awaited,
// and no operation may be open.
#[tactic(auto, unfolding(crate::specs::Close::guarded_close))]
pub(crate) fn guard_close(e: Engine, tables: usize) -> Result<(), Refusal>
    ensures { result ≡ guarded_close e tables }
{
    if tables < TABLE_LENGTH {
        return Err(Refusal::StoreTooShort);
    }
    if !is_sound(e) {
        return Err(Refusal::WrongMoment);
    }
    if !matches!(e.awaits, Await::Bytes) || is_busy(e.operation) {
        return Err(Refusal::WrongMoment);
    }
    Ok(())
}

// Whether each of `ids` is one of the first `count` numbers of `tables`.
fn are_open(ids: &[u32], tables: &[u64], count: usize) -> bool
    requires { (count ≤ max_connections) × (count ≤ length tables.now) }
    ensures { result ≡ all_open ids.now (take count tables.now) }
{
    ids.iter().all(|id| is_open(tables, count, *id))
}

// Whether one of `ids` occurs twice.
fn has_repeated(ids: &[u32]) -> bool
    ensures { result ≡ repeats ids.now }
{
    for (i, id) in ids.iter().enumerate() {
        if ids[i + 1..].contains(id) {
            return true;
        }
    }
    false
}

// Returns why `ids` may not be closed, or says that they may. The first `count` numbers of `tables` are open.
#[tactic(auto, unfolding(crate::specs::Close::judged_close))]
pub(crate) fn judge(ids: &[u32], tables: &[u64], count: usize) -> Result<(), Refusal>
    requires { (count ≤ max_connections) × (count ≤ length tables.now) }
    ensures { result ≡ judged_close ids.now (take count tables.now) }
{
    if ids.len() > MAX_CONNECTIONS {
        return Err(Refusal::TooManyIds);
    }
    if !are_open(ids, tables, count) {
        return Err(Refusal::IdNotOpen);
    }
    if has_repeated(ids) {
        return Err(Refusal::IdRepeated);
    }
    Ok(())
}

// Closes `ids` one after the other, of the first `count` numbers of `tables`, and returns how many are left.
pub(crate) fn close_all(ids: &[u32], tables: &mut [u64], count: usize) -> usize
    requires { (count ≤ max_connections) × (table_length ≤ length tables.old) }
    ensures { remaining result tables.new ≡ closed_all ids.now count tables.old }
{
    let mut left = count;
    for id in ids {
        left = close_link(tables, left, *id);
    }
    left
}

// Returns the peer once `closed` ids were closed and `left` are left. If none was closed, nothing changes.
pub(crate) fn closed_peer(peer: Peer, closed: usize, left: usize) -> Peer
    ensures { result ≡ closed_by peer closed left }
{
    if closed == 0 {
        return peer;
    }
    with_left(peer, left)
}

// Returns the result with `peer`: the engine wants bytes as before, and a packet that has begun goes on.
#[tactic(auto, unfolding(model::specs::Step::engine_with))]
pub(crate) fn go_on_with(e: Engine, peer: Peer) -> CallResult
    ensures { result ≡ goes_on_with e peer }
{
    CallResult {
        engine: Engine { peer, ..e },
        taken: 0,
        outcome: Outcome::WantsBytes,
    }
}
