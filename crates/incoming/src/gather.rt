// Gathering an operation's packets (docs/PROTOCOL.md#put, #get, #headers-only): headers go to the header store as received, the body bytes
// of a Put to the body store.
ghost use Rattle.std.specs.Prelude.{◌≡◌, true, List, ℕ, ◌+◌, ◌≤◌, length};
ghost use Rattle.journal.specs.Record.{is_body, is_srm};
ghost use Rattle.packet.specs.Limits.{max_packet};
ghost use Rattle.packet.specs.Header.{part, bytes_of, read_headers};
ghost use Rattle.packet.specs.HeaderList.{readable_from};
ghost use Rattle.incoming.specs.Gather.{gathering, is_stored, is_dropped, keep_bytes, store_bytes};
ghost use Rattle.incoming.specs.Gather.{gather_one, gather_all, headers_of};

use base::copy_into;
use packet::header::HeaderAt;
use packet::header_id::{BODY, END_OF_BODY, SINGLE_RESPONSE_MODE, SINGLE_RESPONSE_MODE_PARAMETERS};
use packet::limits::MAX_PACKET;
use walk::step;

// Which headers of an operation's packets are kept.
#[derive(Clone, Copy)]
pub enum Keep {
    // All but the body headers and the headers of Single Response Mode (SRM); body bytes go to the body store.
    Put,
    // All but the SRM headers.
    Get,
    // All headers.
    All,
}

// An operation's kept headers and body, as counts of bytes in their stores.
#[derive(Clone, Copy)]
pub struct Gathered {
    // How many bytes of kept headers there are.
    pub kept: usize,
    // How many body bytes there are.
    pub body: usize,
    // A body header came: an empty body is not the same as none.
    pub came: bool,
    // A body header passed the limit, and was not stored.
    pub over: bool,
    // A header did not fit the header store, and gathering stopped there (the engine ends with 6).
    pub full: bool,
}

// Tells whether `id` is Body or EndOfBody.
#[tactic(auto, unfolding(journal::specs::Record::is_body))]
fn is_body(id: u8) -> bool
    ensures { result ≡ is_body id }
{
    matches!(id, BODY | END_OF_BODY)
}

// Tells whether `id` is one of the two SRM headers.
#[tactic(auto, unfolding(journal::specs::Record::is_srm))]
fn is_srm(id: u8) -> bool
    ensures { result ≡ is_srm id }
{
    matches!(id, SINGLE_RESPONSE_MODE | SINGLE_RESPONSE_MODE_PARAMETERS)
}

// Appends the bytes of a header to the header store, if the kept headers then stay within 65,535 bytes.
fn keep_bytes(bytes: &[u8], g: Gathered, headers: &mut [u8]) -> Gathered
    requires { (g.kept ≤ max_packet) × (max_packet ≤ length headers.old) }
    ensures model { (b : List ℕ) → gathering result headers.new b
        ≡ keep_bytes (gathering g headers.old b) bytes.now }
{
    if MAX_PACKET - g.kept < bytes.len() {
        return Gathered { full: true, ..g };
    }
    copy_into(headers, g.kept, bytes);
    Gathered {
        kept: g.kept + bytes.len(),
        full: false,
        ..g
    }
}

// Appends the bytes of a body header to the body store, unless they pass the limit: then none of them is stored, but a later header that
// fits still is, as in the source.
fn store_bytes(bytes: &[u8], g: Gathered, limit: usize, body: &mut [u8]) -> Gathered
    requires { (g.body ≤ limit) × (limit ≤ length body.old) }
    ensures model { (h : List ℕ) → gathering result h body.new
        ≡ store_bytes limit (gathering g h body.old) bytes.now }
{
    if limit - g.body < bytes.len() {
        return Gathered {
            came: true,
            over: true,
            full: false,
            ..g
        };
    }
    copy_into(body, g.body, bytes);
    Gathered {
        body: g.body + bytes.len(),
        came: true,
        full: false,
        ..g
    }
}

// Tells whether the value of a header with `id` is stored as body bytes.
fn is_stored(keep: Keep, id: u8) -> bool
    ensures { result ≡ is_stored keep id }
{
    match keep {
        Keep::Put => is_body(id),
        Keep::Get | Keep::All => false,
    }
}

// Tells whether a header with `id` is dropped: the engine answers the SRM headers itself.
fn is_dropped(keep: Keep, id: u8) -> bool
    ensures { result ≡ is_dropped keep id }
{
    match keep {
        Keep::Put | Keep::Get => is_srm(id),
        Keep::All => false,
    }
}

// Gathers one header. Its bytes stand from `at` up to `end`, those of its value from `start` on.
fn gather_one(
    p: &[u8],
    at: usize,
    start: usize,
    end: usize,
    id: u8,
    keep: Keep,
    limit: usize,
    g: Gathered,
    headers: &mut [u8],
    body: &mut [u8],
) -> Gathered
    requires { (bytes_of (record { id = id; value = part p.now start «end» }) ≡ part p.now at «end») × (at ≤ start) × (start ≤ «end»)
        × («end» ≤ length p.now) × (g.kept ≤ max_packet) × (max_packet ≤ length headers.old) × (g.body ≤ limit)
        × (limit ≤ length body.old) }
    ensures model { gathering result headers.new body.new
        ≡ gather_one keep limit (gathering g headers.old body.old)
        (record { id = id; value = part p.now start «end» }) }
{
    if is_stored(keep, id) {
        return store_bytes(&p[start..end], g, limit, body);
    }
    if is_dropped(keep, id) {
        return g;
    }
    keep_bytes(&p[at..end], g, headers)
}

// Gathers the headers of a packet from `from` on, which can all be read, in list order and up to a header that does not fit.
pub fn gather(
    p: &[u8],
    from: usize,
    keep: Keep,
    limit: usize,
    begun: Gathered,
    headers: &mut [u8],
    body: &mut [u8],
) -> Gathered
    requires { (readable_from p.now from ≡ true) × (begun.kept ≤ max_packet) × (max_packet ≤ length headers.old)
        × (begun.body ≤ limit) × (limit ≤ length body.old) }
    ensures model { gathering result headers.new body.new
        ≡ gather_all keep limit (headers_of (read_headers p.now from))
        (gathering begun headers.old body.old) }
    ensures within { (result.kept ≤ max_packet) × (result.body ≤ limit) }
{
    let mut g = begun;
    let mut at = from;
    // Stays a walk from place to place: each header tells where the next one starts.
    while !g.full {
        let HeaderAt::At { id, start, end, .. } = step(p, at) else {
            return g;
        };
        g = gather_one(p, at, start, end, id, keep, limit, g, headers, body);
        at = end;
    }
    g
}
