// Plays a session on standard input to the engine many times and counts what comes back, for its throughput: load COUNT READ [1]. With a
// READ of 0 a read ends where a packet does, and goes straight into the packet store unless a 1 follows. Every other read goes into the
// input store.
#![tactic(auto)]

ghost use Rattle.std.specs.Prelude.{◌≤◌};

use base::{be16_at, copy_into};
use engine::calls;
use lines::arguments;
use lines::input::read_full;
use lines::output::{least, put, put_number, write};
use lines::word::{byte_at, number};
use server::{CallResult, Engine, HostRequest, Outcome, default_settings};
use std::env::Env;
use std::io::Read;
use std::num::wrapping_add_usize;

// The stores are arrays of known lengths, so that the proof need not be told that no call changes them. The table store is longer than the
// engine asks. So are the packet, header and reply stores: arrays of 65,535 bytes side by side begin a byte apart, counted from the start
// of a page, and some processors copy at a tenth of their speed between two such places (docs/PERFORMANCE.md).
const READ: usize = 65536;

const TABLES: usize = 320;

const PACKET: usize = 66535;

const BODY: usize = 65536;

// The longest body of a Put, and the object's length.
const LIMIT: u32 = 65536;

const OBJECT: usize = 1048576;

// More calls than any session has.
const CALLS: usize = 1000000000000;

// What the peer and the host have done, and what came back.
#[derive(Clone, Copy)]
struct Progress {
    // Whether a read goes straight into the packet store.
    placing: bool,
    // How much of the stream is read, and what of the last read is not taken.
    at: usize,
    from: usize,
    to: usize,
    // How much of the object is left, and how much of it the next body read gives.
    left: usize,
    given: usize,
    replies: usize,
    bytes: usize,
    records: usize,
    // The last bytes of replies and bodies, so that none of them is left unmade.
    sum: usize,
}

fn last_byte(s: &[u8], n: usize) -> usize {
    if n == 0 {
        return 0;
    }
    base::wide(byte_at(s, n - 1))
}

// ---- the peer

// Returns how long the next read is at most. If `longest` is 0, the read ends where a packet does.
fn longest_read(longest: usize, rest: &[u8]) -> usize {
    if longest != 0 {
        return longest;
    }
    if rest.len() < 3 {
        return rest.len();
    }
    be16_at(rest, 1)
}

// Reads on in the stream, into `store`.
fn read_into(p: Progress, stream: &[u8], longest: usize, store: &mut [u8]) -> Progress {
    let at = least(p.at, stream.len());
    let n = least(longest_read(longest, &stream[at..]), stream.len() - at);
    let m = least(n, store.len());
    copy_into(store, 0, &stream[at..at + m]);
    let mut q = p;
    q.at = at + m;
    q.from = 0;
    q.to = m;
    q
}

// Reads on in the stream, if nothing is left of the last read.
fn next_read(
    p: Progress,
    stream: &[u8],
    longest: usize,
    input: &mut [u8; READ],
    packet: &mut [u8; PACKET],
) -> Progress {
    if p.from < p.to {
        return p;
    }
    if p.placing {
        return read_into(p, stream, longest, packet);
    }
    read_into(p, stream, longest, input)
}

// Notes that the engine took `n` bytes of the last read.
fn taken(p: Progress, n: usize) -> Progress {
    let from = least(p.from, p.to);
    let mut q = p;
    q.from = from + least(n, p.to - from);
    q
}

fn count_reply(p: Progress, n: usize, reply: &[u8]) -> Progress {
    let mut q = p;
    q.replies = wrapping_add_usize(p.replies, 1);
    q.bytes = wrapping_add_usize(p.bytes, n);
    q.sum = wrapping_add_usize(p.sum, last_byte(reply, n));
    q
}

// ---- the host

fn count_record(p: Progress, last: usize) -> Progress {
    let mut q = p;
    q.records = wrapping_add_usize(p.records, 1);
    q.sum = wrapping_add_usize(p.sum, last);
    q
}

fn last_of(b: Option<usize>, body: &[u8]) -> usize {
    match b {
        Some(n) => last_byte(body, n),
        None => 0,
    }
}

fn begin_object(p: Progress) -> Progress {
    let mut q = p;
    q.left = OBJECT;
    q
}

fn read_object(p: Progress, room: usize) -> Progress {
    let given = least(room, p.left);
    let mut q = p;
    q.left = p.left - given;
    q.given = given;
    q
}

fn asked(p: Progress, request: HostRequest, body: &[u8]) -> Progress {
    match request {
        HostRequest::Put { kept: _, body: b } => count_record(p, last_of(b, body)),
        HostRequest::Get { kept: _ } => begin_object(p),
        HostRequest::Read { room } => read_object(p, room),
        _ => p,
    }
}

// Does what comes before the call that follows `outcome`: reads on, counts what came back, or chooses how much of the object is given.
fn noted(
    p: Progress,
    outcome: Outcome,
    stream: &[u8],
    longest: usize,
    input: &mut [u8; READ],
    packet: &mut [u8; PACKET],
    body: &[u8],
    reply: &[u8],
) -> Progress {
    match outcome {
        Outcome::WantsBytes => next_read(p, stream, longest, input, packet),
        Outcome::Reply { length } => count_reply(p, length, reply),
        Outcome::Request(request) => asked(p, request, body),
        Outcome::End(_) => p,
        Outcome::Refused(_) => p,
    }
}

// Answers a Get with the object and a read of its body with `chunk`, acknowledges an Abort, and replies with Success to all else.
fn answer(
    e: Engine,
    request: HostRequest,
    chunk: &[u8],
    tables: &mut [u64; TABLES],
    packet: &mut [u8; PACKET],
    headers: &mut [u8; PACKET],
    body: &mut [u8; BODY],
    reply: &mut [u8; PACKET],
) -> CallResult {
    match request {
        HostRequest::Get { kept: _ } => calls::object_given(
            e,
            &chunk[0..0],
            true,
            packet,
            headers,
            body,
            reply,
        ),
        HostRequest::Read { room: _ } => calls::body_given(e, chunk, packet, headers, body, reply),
        HostRequest::Abort { length: _ } => calls::abort_acknowledged(
            e, packet, headers, body, reply,
        ),
        _ => calls::reply_given(e, 0x20, &chunk[0..0], tables, packet, headers, body, reply),
    }
}

// Returns up to where the bytes from `from` to `to` stand in the packet store already: all of them or none.
fn placed_to(placing: bool, from: usize, to: usize) -> usize
    requires { from ≤ to }
    ensures { (from ≤ result) × (result ≤ to) }
{
    if placing {
        return to;
    }
    from
}

// Offers what is left of the last read: of a read into the packet store, how much of it; of one into the input store, the bytes.
fn offer(
    e: Engine,
    p: Progress,
    input: &[u8],
    tables: &[u64; TABLES],
    packet: &mut [u8; PACKET],
    headers: &mut [u8; PACKET],
    body: &mut [u8; BODY],
    reply: &mut [u8; PACKET],
) -> CallResult {
    let to = least(p.to, input.len());
    let from = least(p.from, to);
    if from == to {
        return calls::stream_ended(e, packet, headers, body, reply);
    }
    let at = placed_to(p.placing, from, to);
    calls::bytes_offered(
        e,
        at - from,
        &input[at..to],
        tables,
        packet,
        headers,
        body,
        reply,
    )
}

// Makes the call that follows `outcome`.
fn call(
    e: Engine,
    outcome: Outcome,
    p: Progress,
    zeros: &[u8],
    input: &[u8],
    tables: &mut [u64; TABLES],
    packet: &mut [u8; PACKET],
    headers: &mut [u8; PACKET],
    body: &mut [u8; BODY],
    reply: &mut [u8; PACKET],
) -> CallResult {
    match outcome {
        Outcome::Request(request) => {
            let given = least(p.given, zeros.len());
            answer(
                e,
                request,
                &zeros[0..given],
                tables,
                packet,
                headers,
                body,
                reply,
            )
        }
        Outcome::Reply { length: _ } => calls::reply_taken(e, packet, headers, body, reply),
        _ => offer(e, p, input, tables, packet, headers, body, reply),
    }
}

fn is_over(outcome: Outcome) -> bool {
    match outcome {
        Outcome::End(_) => true,
        Outcome::Refused(_) => true,
        _ => false,
    }
}

// Begins a session at the start of the stream. What came back before stays counted.
fn begin(p: Progress) -> Progress {
    let mut q = p;
    q.at = 0;
    q.from = 0;
    q.to = 0;
    q
}

// Plays one session with an engine of its own.
fn play(
    p: Progress,
    stream: &[u8],
    longest: usize,
    zeros: &[u8],
    input: &mut [u8; READ],
    tables: &mut [u64; TABLES],
    packet: &mut [u8; PACKET],
    headers: &mut [u8; PACKET],
    body: &mut [u8; BODY],
    reply: &mut [u8; PACKET],
) -> Progress {
    let mut q = begin(p);
    let mut took = calls::start(
        default_settings(LIMIT),
        &zeros[0..0],
        &tables[..],
        packet,
        headers,
        body,
        reply,
    );
    let mut left = CALLS;
    while left > 0 {
        let outcome = took.outcome;
        if is_over(outcome) {
            return q;
        }
        q = noted(q, outcome, stream, longest, input, packet, body, reply);
        took = call(
            took.engine,
            outcome,
            q,
            zeros,
            input,
            tables,
            packet,
            headers,
            body,
            reply,
        );
        q = taken(q, took.taken);
        left -= 1;
    }
    q
}

// ---- the program

fn argument(rt: &impl Env, i: usize) -> usize {
    let mut word = [0u8; 20];
    let n = arguments::argument(rt, i, &mut word);
    number(&word[..n])
}

fn print(rt: &impl Print, p: Progress) {
    let mut out = [0u8; 160];
    let a = put(&mut out, 0, b"replies ");
    let b = put_number(&mut out, a, p.replies);
    let d = put(&mut out, b, b" bytes ");
    let e = put_number(&mut out, d, p.bytes);
    let f = put(&mut out, e, b" records ");
    let g = put_number(&mut out, f, p.records);
    let h = put(&mut out, g, b" sum ");
    let i = put_number(&mut out, h, p.sum);
    let n = put(&mut out, i, b"\n");
    write(rt, &out, n);
}

// Returns the progress before the first session: nothing is read, and nothing has come back.
fn nothing_yet(placing: bool) -> Progress {
    Progress {
        placing,
        at: 0,
        from: 0,
        to: 0,
        left: 0,
        given: 0,
        replies: 0,
        bytes: 0,
        records: 0,
        sum: 0,
    }
}

// Whether reads go into the packet store, by the last two arguments.
fn places(longest: usize, offered: usize) -> bool {
    if longest != 0 {
        return false;
    }
    offered == 0
}

// Plays the session on standard input as often as the first argument says.
fn run(
    rt: &impl Env,
    from: &mut impl Read,
    stream: &mut [u8],
    zeros: &[u8],
    input: &mut [u8; READ],
    tables: &mut [u64; TABLES],
    packet: &mut [u8; PACKET],
    headers: &mut [u8; PACKET],
    body: &mut [u8; BODY],
    reply: &mut [u8; PACKET],
) -> Progress {
    let n = read_full(from, stream);
    let count = argument(rt, 1);
    let longest = argument(rt, 2);
    let mut p = nothing_yet(places(longest, argument(rt, 3)));
    let mut i = 0;
    while i < count {
        p = play(
            p,
            &stream[..n],
            longest,
            zeros,
            input,
            tables,
            packet,
            headers,
            body,
            reply,
        );
        i += 1;
    }
    p
}

fn main(rt: HostRuntime) {
    let mut stream = [0u8; 1048576];
    let zeros = [0u8; 65536];
    let mut input = [0u8; READ];
    let mut tables = [0u64; TABLES];
    let mut packet = [0u8; PACKET];
    let mut headers = [0u8; PACKET];
    let mut body = [0u8; BODY];
    let mut reply = [0u8; PACKET];
    let p = run(
        &rt,
        &mut rt.stdin(),
        &mut stream,
        &zeros,
        &mut input,
        &mut tables,
        &mut packet,
        &mut headers,
        &mut body,
        &mut reply,
    );
    print(&rt, p);
}
