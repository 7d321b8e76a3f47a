// The headers that the engine looks for in a Connect that it answers, found in one walk (docs/PROTOCOL.md#connect; of the source's
// handle_connect and verify_client).
ghost use Rattle.std.specs.Prelude.{◌≡◌};
ghost use Rattle.connection.specs.Request.{connect_request, noted_found, noted_request, headerless};

use base::Span;
use packet::header::HeaderAt;
use packet::header_id::{
    AUTHENTICATE_CHALLENGE, AUTHENTICATE_RESPONSE, SINGLE_RESPONSE_MODE, TARGET,
};
use walk::step;

// Where the headers start, and where the values of four of them stand, of each the first. If not all headers can be read, none is found,
// and `from` is the packet's end.
#[derive(Clone, Copy)]
pub struct ConnectRequest {
    pub from: usize,
    pub target: Option<Span>,
    pub challenge: Option<Span>,
    pub response: Option<Span>,
    pub mode: Option<Span>,
}

// Returns the place that is found of the headers with the id `wanted` once the header with `id` is read, whose value stands from `start` up
// to `end`. The first one counts.
fn noted(found: Option<Span>, wanted: u8, id: u8, start: usize, end: usize) -> Option<Span>
    ensures { result ≡ noted_found found wanted id start end }
{
    if id != wanted {
        return found;
    }
    found.or(Some(Span { start, end }))
}

// Notes the header with `id`, whose value stands from `start` up to `end`.
fn note(c: ConnectRequest, id: u8, start: usize, end: usize) -> ConnectRequest
    ensures { result ≡ noted_request c id start end }
{
    let target = c.target;
    let challenge = c.challenge;
    let response = c.response;
    let mode = c.mode;
    ConnectRequest {
        from: c.from,
        target: noted(target, TARGET, id, start, end),
        challenge: noted(challenge, AUTHENTICATE_CHALLENGE, id, start, end),
        response: noted(response, AUTHENTICATE_RESPONSE, id, start, end),
        mode: noted(mode, SINGLE_RESPONSE_MODE, id, start, end),
    }
}

// Returns the request in which nothing is found, with headers that start at `from`.
fn nothing_found(from: usize) -> ConnectRequest
    ensures { result ≡ headerless from }
{
    ConnectRequest {
        from,
        target: None,
        challenge: None,
        response: None,
        mode: None,
    }
}

// Reads the headers of `s` from `from` on in one walk.
pub fn connect_request(s: &[u8], from: usize) -> ConnectRequest
    ensures { result ≡ connect_request s.now from }
{
    let mut c = nothing_found(from);
    let mut at = from;
    loop {
        match step(s, at) {
            HeaderAt::At {
                id,
                encoding: _,
                start,
                end,
            } => {
                c = note(c, id, start, end);
                at = end;
            }
            HeaderAt::Unreadable => {
                return nothing_found(s.len());
            }
            HeaderAt::End => {
                return c;
            }
        }
    }
}
