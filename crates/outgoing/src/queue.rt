// Changing what is still to be sent (the source's engine/body.rs: insert_early and rewind): a header is put in early, or the headers and the
// chunk of a packet are put back. The headers stand at the front of one lent store, and the body bytes that were read and not sent at the
// front of another.
ghost use Rattle.std.specs.Prelude.{◌≡◌, ◌+◌, ◌≤◌, length};
ghost use Rattle.packet.specs.Header.{header_at_of, part};
ghost use Rattle.packet.specs.Placed.{laid, putting};
ghost use Rattle.outgoing.specs.Queue.{must_lead, is_chunk, lead_end, put_in, inserted_early, back_from, piece_of, back_bytes};
ghost use Rattle.outgoing.specs.Queue.{headers_back, body_back, both_room, rewinding, rewound};

use base::copy_into;
use packet::header::HeaderAt;
use packet::header_id::{
    BODY, CONNECTION_ID, END_OF_BODY, SINGLE_RESPONSE_MODE, SINGLE_RESPONSE_MODE_PARAMETERS, TARGET,
};
use packet::store::{LengthField, room};
use packet::tlv::Wrote;
use walk::step;

// ---- bytes that are put in between

// Moves the bytes from `from` up to `to` up by `by` places. The two places may overlap.
fn move_up(store: &mut [u8], from: usize, to: usize, by: usize)
    requires { (from ≤ to) × (to + by ≤ length store.old) }
    ensures { store.new ≡ laid store.old (from + by) (part store.old from to) }
{
    store.copy_within(from..to, from + by);
}

// Puts `bytes` in at `at`, in front of what stands from there up to `n`.
fn put_in(store: &mut [u8], at: usize, n: usize, bytes: &[u8])
    requires { (at ≤ n) × (n + length bytes.now ≤ length store.old) }
    ensures { store.new ≡ put_in store.old at n bytes.now }
{
    move_up(store, at, n, bytes.len());
    copy_into(store, at, bytes);
}

// ---- a header that is put in early

// Tells whether a header with `id` must be among the first of a request.
#[tactic(auto, unfolding(crate::specs::Queue::must_lead))]
fn must_lead(id: u8) -> bool
    ensures { result ≡ must_lead id }
{
    matches!(
        id,
        CONNECTION_ID | TARGET | SINGLE_RESPONSE_MODE | SINGLE_RESPONSE_MODE_PARAMETERS
    )
}

// Returns where the headers at the front of `s` that must lead end.
fn lead_end(s: &[u8]) -> usize
    ensures { (result ≡ lead_end s.now 0) × (result ≤ length s.now) }
{
    let mut at = 0;
    // Stays a walk from place to place: each header tells where the next one starts.
    while let HeaderAt::At { id, end, .. } = step(s, at) {
        if !must_lead(id) {
            return at;
        }
        at = end;
    }
    at
}

// Puts a header in behind those at the front that must lead; `n` bytes of headers stand at the front of the store. Returns how many there
// are then, or that the store is too short, and leaves it as it was.
pub fn insert_early(headers: &mut [u8], n: usize, header: &[u8]) -> Wrote
    ensures { putting result headers.new ≡ inserted_early headers.old n header.now }
{
    let answer = room(headers.len(), n, header.len(), LengthField::TwoBytes, false);
    let Wrote::Written(next) = answer else {
        return answer;
    };
    let at = lead_end(&headers[..n]);
    put_in(headers, at, n, header);
    Wrote::Written(next)
}

// ---- a packet that is put back

// What of a packet's headers goes back into a store.
#[derive(Clone, Copy)]
enum Part {
    // All headers.
    All,
    // All headers but the chunks of the body.
    Headers,
    // The bytes of the chunks.
    Chunks,
    Nothing,
}

// What of one header goes back: the bytes from `from` up to `to`, where the next header starts.
#[derive(Clone, Copy)]
struct Piece {
    from: usize,
    to: usize,
}

// A packet that was put back: so many bytes of headers and of the body are to be sent now.
#[derive(Clone, Copy)]
pub struct Rewound {
    pub headers: usize,
    pub pending: usize,
}

// Tells whether a header with `id` is a chunk of a body.
fn is_chunk(id: u8) -> bool
    ensures { result ≡ is_chunk id }
{
    matches!(id, BODY | END_OF_BODY)
}

// Returns where that which goes back of a header starts. The header starts at `at`, its value at `start`, and both end at `end`.
fn back_from(part: Part, id: u8, at: usize, start: usize, end: usize) -> usize
    ensures { result ≡ back_from part (is_chunk id) at start end }
{
    match part {
        Part::Headers if is_chunk(id) => end,
        Part::All | Part::Headers => at,
        Part::Chunks if is_chunk(id) => start,
        Part::Chunks | Part::Nothing => end,
    }
}

// Returns what goes back of the header at `at`, or `None` if there is none.
fn piece_at(part: Part, packet: &[u8], at: usize) -> Option<Piece>
    ensures { result ≡ piece_of part (header_at_of packet.now at) at }
{
    let HeaderAt::At { id, start, end, .. } = step(packet, at) else {
        return None;
    };
    Some(Piece {
        from: back_from(part, id, at, start, end),
        to: end,
    })
}

// Returns how many bytes go back of the headers of a packet.
fn back_len(part: Part, packet: &[u8]) -> usize
    ensures { (result ≡ length (back_bytes part packet.now 0)) × (result ≤ length packet.now) }
{
    let mut at = 0;
    let mut n = 0;
    // Stays a walk from place to place, as in `lead_end`.
    while let Some(Piece { from, to }) = piece_at(part, packet, at) {
        n += to - from;
        at = to;
    }
    n
}

// Writes what goes back of the headers of a packet to the front of the store.
fn put_back(part: Part, packet: &[u8], store: &mut [u8])
    requires { length (back_bytes part packet.now 0) ≤ length store.old }
    ensures { store.new ≡ laid store.old 0 (back_bytes part packet.now 0) }
{
    let mut at = 0;
    let mut n = 0;
    // Stays a walk from place to place, as in `lead_end`.
    while let Some(Piece { from, to }) = piece_at(part, packet, at) {
        copy_into(store, n, &packet[from..to]);
        n += to - from;
        at = to;
    }
}

// Puts the `size` bytes that go back of a packet in front of the `n` bytes that stand at the front of the store.
fn put_front(part: Part, packet: &[u8], size: usize, store: &mut [u8], n: usize)
    requires { (size ≡ length (back_bytes part packet.now 0)) × (n + size ≤ length store.old) }
    ensures { store.new ≡ put_in store.old 0 n (back_bytes part packet.now 0) }
{
    move_up(store, 0, n, size);
    put_back(part, packet, store);
}

// Returns what goes back into the header store. If there is no body, chunks are headers as any other.
fn headers_back(has_body: bool) -> Part
    ensures { result ≡ headers_back has_body }
{
    if has_body { Part::Headers } else { Part::All }
}

// Returns what goes back into the body store.
fn body_back(has_body: bool) -> Part
    ensures { result ≡ body_back has_body }
{
    if has_body {
        Part::Chunks
    } else {
        Part::Nothing
    }
}

// Tells whether `kept` and `chunks` bytes more fit behind the `n` and `pending` bytes of stores of `len` and `body_len` bytes.
fn both_room(
    len: usize,
    n: usize,
    kept: usize,
    body_len: usize,
    pending: usize,
    chunks: usize,
) -> Option<Rewound>
    ensures { result ≡ both_room len n kept body_len pending chunks }
{
    let Wrote::Written(headers) = room(len, n, kept, LengthField::TwoBytes, false) else {
        return None;
    };
    let Wrote::Written(pending) = room(body_len, pending, chunks, LengthField::TwoBytes, false)
    else {
        return None;
    };
    Some(Rewound { headers, pending })
}

// Puts the headers of a packet back, so that they can be sent again: the bytes of its chunks in front of the `pending` bytes of the body, if
// the object has one, and all other headers in front of the `n` bytes of headers that are still to be sent. `packet` is the packet without
// what stands before its headers. If a store is too short, both stay as they were, and the answer is `None`.
pub fn rewind(
    packet: &[u8],
    has_body: bool,
    headers: &mut [u8],
    n: usize,
    body: &mut [u8],
    pending: usize,
) -> Option<Rewound>
    ensures { rewinding result headers.new body.new
        ≡ rewound has_body packet.now headers.old n body.old pending }
{
    let of_headers = headers_back(has_body);
    let of_body = body_back(has_body);
    let kept = back_len(of_headers, packet);
    let chunks = back_len(of_body, packet);
    let rewound = both_room(headers.len(), n, kept, body.len(), pending, chunks)?;
    put_front(of_headers, packet, kept, headers, n);
    put_front(of_body, packet, chunks, body, pending);
    Some(rewound)
}
