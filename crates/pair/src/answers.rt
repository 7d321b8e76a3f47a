// The host's answers: lines of the script, each used once, in order. The first line of a kind that was not used answers the next request of
// that kind. If there is none, the host answers as one that keeps nothing: with success, and a Get with 0x51.
ghost use Rattle.std.specs.Prelude.{◌≤◌, length, IfSome};

use crate::script::{Content, OTHER_WORD, byte_of, unhex_both};
use crate::stream::Way;
use check::same;
use lines::output::put;
use lines::store::between;
use lines::word::{Place, byte_at, find, word_of};
use packet::response::{NOT_IMPLEMENTED, SUCCESS};
use server::HostRequest;
use std::alloc::{AllocError, Global};

// How long the store of the host's lines is, each with its end. A line for which there is no room is dropped.
pub const ANSWERS: usize = 1179648;

// The kinds of lines.
#[derive(Clone, Copy, PartialEq, Eq)]
pub enum Kind {
    Connect,
    Put,
    Get,
    Disconnect,
    Nonce,
    Password,
    // Bytes that come to a client that has no server.
    Bytes,
}

// The calls on the engine that answer a request. Header bytes, a password and a nonce stand at the front of the word store.
#[derive(Clone, Copy)]
pub enum Answer {
    Reply {
        code: u8,
        headers: usize,
    },
    Object {
        headers: usize,
        has_body: bool,
        content: Content,
    },
    Nonce(usize),
    Password(Option<usize>),
    NoCredentials,
    Acknowledge,
    // The next body bytes of the object.
    Body {
        room: usize,
    },
}

// The host's lines: the first `size` bytes of the store. The first byte of one that was used is another than before.
#[derive(Drop)]
pub struct Answers {
    lines: Vec<u8>,
    size: usize,
}

impl Kind {
    fn parse(word: &[u8]) -> Option<Kind> {
        match word {
            b"connect" => Some(Kind::Connect),
            b"put" => Some(Kind::Put),
            b"get" => Some(Kind::Get),
            b"disconnect" => Some(Kind::Disconnect),
            b"nonce" => Some(Kind::Nonce),
            b"password" => Some(Kind::Password),
            b"bytes" => Some(Kind::Bytes),
            _ => None,
        }
    }

    // Returns which kind of line answers a request.
    fn of(request: HostRequest) -> Option<Kind> {
        match request {
            HostRequest::Connect { .. } => Some(Kind::Connect),
            HostRequest::Put { .. } => Some(Kind::Put),
            HostRequest::Get { .. } => Some(Kind::Get),
            HostRequest::Disconnect { .. } => Some(Kind::Disconnect),
            HostRequest::Nonce => Some(Kind::Nonce),
            HostRequest::Password { .. } => Some(Kind::Password),
            _ => None,
        }
    }
}

impl Answers {
    // Returns a host's lines before the first.
    pub(crate) fn new(alloc: Global) -> Result<Answers, AllocError> {
        Ok(Answers {
            lines: vec![in alloc; 0u8; ANSWERS]?,
            size: 0,
        })
    }

    // A session begins: the host has no lines.
    pub(crate) fn clear(&mut self) {
        self.size = 0;
    }

    // Keeps a line of the host, if there is room for it.
    pub(crate) fn keep(&mut self, line: &[u8]) {
        if ANSWERS.saturating_sub(self.size) <= line.len() {
            return;
        }
        let end = put(self.lines.as_mut_slice(), self.size, line);
        self.size = put(self.lines.as_mut_slice(), end, b"\n");
    }

    // Returns the answer to a request, by the first line for it, with its bytes in `words`, and uses up the line.
    pub(crate) fn take_for(&mut self, request: HostRequest, words: &mut [u8]) -> Answer {
        let Some(kind) = Kind::of(request) else {
            return default_answer(request);
        };
        let lines = between(self.lines.as_slice(), 0, self.size);
        let Some(place) = find_line(lines, kind) else {
            return default_answer(request);
        };
        let answer = answer_of(kind, &lines[place.start..place.end], words);
        self.mark(place.start);
        answer
    }

    // Lets the bytes of the next line `host bytes HEX` come on `way`, uses up the line, and tells whether there are any bytes.
    pub(crate) fn take_bytes(&mut self, way: &mut Way) -> bool {
        let lines = between(self.lines.as_slice(), 0, self.size);
        let Some(place) = find_line(lines, Kind::Bytes) else {
            return false;
        };
        let is_some = way.fill(word_of(&lines[place.start..place.end], 2));
        self.mark(place.start);
        is_some
    }

    // Notes that the line at `at` is used.
    fn mark(&mut self, at: usize) {
        if let Some(first) = self.lines.as_mut_slice().get_mut(at) {
            *first = b'-';
        }
    }
}

// Whether a line of the host is of a kind, and not used.
fn is_answer(line: &[u8], kind: Kind) -> bool {
    byte_at(line, 0) == b'h' && Kind::parse(word_of(line, 1)) == Some(kind)
}

// Returns where the first of the host's lines stands that is of a kind and not used.
fn find_line(lines: &[u8], kind: Kind) -> Option<Place>
    ensures { IfSome result (λ place. (place.start ≤ place.end) × (place.end ≤ length lines.now)) }
{
    let mut start = 0;
    // Stays a loop over a place: each line says itself where the next one starts.
    while start < lines.len() {
        let end = find(lines, start, b'\n');
        if is_answer(&lines[start..end], kind) {
            return Some(Place { start, end });
        }
        start = end + 1;
    }
    None
}

// Returns the answer of a host that keeps nothing.
fn default_answer(request: HostRequest) -> Answer {
    match request {
        HostRequest::Connect { .. } | HostRequest::Put { .. } | HostRequest::Disconnect { .. } => {
            Answer::Reply {
                code: SUCCESS,
                headers: 0,
            }
        }
        HostRequest::Abort { .. } => Answer::Acknowledge,
        HostRequest::Read { room } => Answer::Body { room },
        HostRequest::Password { .. } => Answer::Password(None),
        HostRequest::Nonce => Answer::Nonce(0),
        HostRequest::Credentials { .. } => Answer::NoCredentials,
        _ => Answer::Reply {
            code: NOT_IMPLEMENTED,
            headers: 0,
        },
    }
}

// Returns the answer of a line of a kind, with its bytes in `words`.
fn answer_of(kind: Kind, line: &[u8], words: &mut [u8]) -> Answer {
    match kind {
        Kind::Get => get_answer(line, words),
        Kind::Nonce => Answer::Nonce(unhex_both(line, 2, OTHER_WORD, words).headers),
        Kind::Password => {
            let n = unhex_both(line, 2, OTHER_WORD, words).headers;
            Answer::Password(if same(word_of(line, 2), b"none") {
                None
            } else {
                Some(n)
            })
        }
        _ => reply_of(line, 2, words),
    }
}

// Returns the reply with the code and the headers of a line, from the word with the number `at` on.
fn reply_of(line: &[u8], at: usize, words: &mut [u8]) -> Answer {
    Answer::Reply {
        code: byte_of(word_of(line, at)),
        headers: unhex_both(line, at.saturating_add(1), OTHER_WORD, words).headers,
    }
}

// Returns the answer of a line to a Get: `host get object HEADERS nobody|body|failed [BYTES]` or `host get reply CODE HEADERS`.
fn get_answer(line: &[u8], words: &mut [u8]) -> Answer {
    if !same(word_of(line, 2), b"object") {
        return reply_of(line, 3, words);
    }
    let sizes = unhex_both(line, 3, 5, words);
    let word = word_of(line, 4);
    Answer::Object {
        headers: sizes.headers,
        has_body: !same(word, b"nobody"),
        content: Content {
            from: sizes.headers,
            to: sizes.headers.saturating_add(sizes.body),
            piece: 0,
            fails: same(word, b"failed"),
        },
    }
}
