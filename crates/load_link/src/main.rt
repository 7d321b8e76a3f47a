// Plays Puts or Gets between a client and the engine in one process, many times, and counts what came back, for the throughput of both: load_link
// put|get COUNT LIMIT. A Put has a body of 48 KiB, an object one of 1 MiB, and both ends take packets of LIMIT bytes. A packet goes from one end's
// store to the other end in one piece.
#![tactic(auto)]

use client::calls;
use client_model::Outcome;
use engine::calls as serving;
use lines::arguments;
use lines::output::{least, put, put_number, write};
use lines::word::number;
use packet::response::SUCCESS;
use server::{HostRequest, default_settings};
use std::env::Env;
use std::num::wrapping_add_usize;

// The stores are longer than both ends ask: arrays of 65,535 bytes side by side begin a byte apart, counted from the start of a page, and some
// processors copy at a tenth of their speed between two such places (docs/PERFORMANCE.md).
const PACKET: usize = 66535;

const BODY: usize = 65536;

const TABLES: usize = 320;

// The longest body of a Put.
const LIMIT: u32 = 65536;

// How long the body of a Put is, and the object of a Get.
const RECORD: usize = 49152;

const OBJECT: usize = 1048576;

// More turns than any run has.
const TURNS: usize = 1000000000000;

// What is to be done, and what came back.
#[derive(Clone, Copy)]
struct Progress {
    is_put: bool,
    // How many operations are still to be called, and how many body bytes of the last one are still to be given.
    operations: usize,
    left: usize,
    // How many body bytes the next call gives.
    given: usize,
    records: usize,
    bytes: usize,
}

// What is done next: the user calls, the host answers, a packet goes up, a reply goes down, or nothing.
#[derive(Clone, Copy)]
enum Turn {
    User,
    Host(HostRequest),
    Up(usize),
    Down(usize),
    Stop,
}

// ---- what is next

// Returns what the server does while the client waits for bytes.
fn awaited(server: server::Outcome) -> Turn {
    match server {
        server::Outcome::Reply { length } => Turn::Down(length),
        server::Outcome::Request(request) => Turn::Host(request),
        _ => Turn::Stop,
    }
}

// Returns what is done next.
fn turn_of(client: Outcome, server: server::Outcome) -> Turn {
    match client {
        Outcome::Send { length } => Turn::Up(length),
        Outcome::WantsBytes => awaited(server),
        Outcome::End(_) => Turn::Stop,
        Outcome::Refused(_) => Turn::Stop,
        _ => Turn::User,
    }
}

fn is_stop(turn: Turn) -> bool {
    if let Turn::Stop = turn { true } else { false }
}

// Returns the progress once an operation is called. A Put's body is given from its start.
fn called(p: Progress) -> Progress {
    let mut q = p;
    q.operations = p.operations - least(p.operations, 1);
    q.left = RECORD;
    q
}

// Returns the progress once `room` body bytes are asked for.
fn asked(p: Progress, room: usize) -> Progress {
    let given = least(room, p.left);
    let mut q = p;
    q.given = given;
    q.left = p.left - given;
    q
}

fn received(p: Progress, body: Option<usize>) -> Progress {
    let mut q = p;
    match body {
        Some(n) => {
            q.bytes = wrapping_add_usize(p.bytes, n);
            q
        }
        None => q,
    }
}

// Returns the progress before the user's call that follows an outcome.
fn before_call(p: Progress, outcome: Outcome) -> Progress {
    match outcome {
        Outcome::Done { code: _, length: _ } => called(p),
        Outcome::Read { room } => asked(p, room),
        Outcome::Part { kept: _, body } => received(p, body),
        _ => p,
    }
}

fn recorded(p: Progress, body: Option<usize>) -> Progress {
    let mut q = p;
    q.records = wrapping_add_usize(p.records, 1);
    match body {
        Some(n) => {
            q.bytes = wrapping_add_usize(p.bytes, n);
            q
        }
        None => q,
    }
}

fn begin_object(p: Progress) -> Progress {
    let mut q = p;
    q.left = OBJECT;
    q
}

// Returns the progress before the host's answer to a request.
fn before_answer(p: Progress, request: HostRequest) -> Progress {
    match request {
        HostRequest::Put { kept: _, body } => recorded(p, body),
        HostRequest::Get { kept: _ } => begin_object(p),
        HostRequest::Read { room } => asked(p, room),
        _ => p,
    }
}

// Returns the progress before a turn.
fn noted(p: Progress, said: Outcome, turn: Turn) -> Progress {
    match turn {
        Turn::User => before_call(p, said),
        Turn::Host(request) => before_answer(p, request),
        _ => p,
    }
}

// ---- the client's end

// Calls the next operation, with a Name.
fn call_next(
    c: client_model::Client,
    is_put: bool,
    packet: &mut [u8; PACKET],
    headers: &mut [u8; PACKET],
    body: &mut [u8; PACKET],
    request: &mut [u8; PACKET],
) -> client_model::CallResult {
    let name = b"\x01\x00\x07\x00a\x00\x00";
    if is_put {
        return calls::put(c, name, true, packet, headers, body, request);
    }
    calls::get(c, name, packet, headers, body, request)
}

// Makes the user's call that follows an outcome. `a` are the body bytes that it gives.
fn call(
    last: client_model::CallResult,
    is_put: bool,
    a: &[u8],
    packet: &mut [u8; PACKET],
    headers: &mut [u8; PACKET],
    body: &mut [u8; PACKET],
    request: &mut [u8; PACKET],
) -> client_model::CallResult {
    let c = last.client;
    let outcome = last.outcome;
    match outcome {
        Outcome::Ready => calls::connect(c, b"", packet, headers, body, request),
        Outcome::Read { room: _ } => calls::body_given(c, a, packet, headers, body, request),
        Outcome::Part { kept: _, body: _ } => calls::part_taken(c, packet, headers, body, request),
        _ => call_next(c, is_put, packet, headers, body, request),
    }
}

// Returns the first `n` bytes of `s`, or all if there are fewer.
fn front(s: &[u8], n: usize) -> &[u8] {
    if n <= s.len() { &s[0..n] } else { s }
}

// ---- the server's end

// Answers a Get with the object and a read of its body with `a`, and replies with success to all else.
fn answer(
    e: server::Engine,
    request: HostRequest,
    a: &[u8],
    tables: &mut [u64; TABLES],
    packet: &mut [u8; PACKET],
    headers: &mut [u8; PACKET],
    body: &mut [u8; BODY],
    reply: &mut [u8; PACKET],
) -> server::CallResult {
    match request {
        HostRequest::Get { kept: _ } => serving::object_given(
            e, b"", true, packet, headers, body, reply,
        ),
        HostRequest::Read { room: _ } => serving::body_given(e, a, packet, headers, body, reply),
        _ => serving::reply_given(e, SUCCESS, b"", tables, packet, headers, body, reply),
    }
}

// ---- the program

fn is_done(said: Outcome) -> bool {
    if let Outcome::Done { code: _, length: _ } = said {
        true
    } else {
        false
    }
}

// Whether all operations are done, or nothing can be done.
fn is_over(operations: usize, said: Outcome, turn: Turn) -> bool {
    if is_stop(turn) {
        return true;
    }
    if operations != 0 {
        return false;
    }
    is_done(said)
}

// Takes turns until all operations are done. A proved loop has to end, so the turns are counted down from a number that no run uses up.
fn play(
    p: Progress,
    limit: u16,
    zeros: &[u8],
    c_packet: &mut [u8; PACKET],
    c_headers: &mut [u8; PACKET],
    c_body: &mut [u8; PACKET],
    request: &mut [u8; PACKET],
    tables: &mut [u64; TABLES],
    packet: &mut [u8; PACKET],
    headers: &mut [u8; PACKET],
    body: &mut [u8; BODY],
    reply: &mut [u8; PACKET],
) -> Progress {
    let mut q = p;
    let mut client = calls::start(client_with(limit), c_packet, c_headers, c_body, request);
    let mut server = serving::start(
        server_with(limit),
        b"",
        &tables[..],
        packet,
        headers,
        body,
        reply,
    );
    let mut left = TURNS;
    while left > 0 {
        let said = client.outcome;
        let told = server.outcome;
        let turn = turn_of(said, told);
        if is_over(q.operations, said, turn) {
            return q;
        }
        q = noted(q, said, turn);
        match turn {
            Turn::User => {
                client = call(
                    client,
                    q.is_put,
                    front(zeros, q.given),
                    c_packet,
                    c_headers,
                    c_body,
                    request,
                );
            }
            Turn::Host(asked_for) => {
                server = answer(
                    server.engine,
                    asked_for,
                    front(zeros, q.given),
                    tables,
                    packet,
                    headers,
                    body,
                    reply,
                );
            }
            Turn::Up(n) => {
                server = serving::bytes_offered(
                    server.engine,
                    0,
                    front(request, n),
                    tables,
                    packet,
                    headers,
                    body,
                    reply,
                );
                client = calls::request_sent(client.client, c_packet, c_headers, c_body, request);
            }
            Turn::Down(n) => {
                client = calls::bytes_offered(
                    client.client,
                    0,
                    front(reply, n),
                    c_packet,
                    c_headers,
                    c_body,
                    request,
                );
                server = serving::reply_taken(server.engine, packet, headers, body, reply);
            }
            Turn::Stop => {
                return q;
            }
        }
        left -= 1;
    }
    q
}

fn client_with(limit: u16) -> client_model::Settings {
    client_model::Settings {
        max_packet_length: limit,
        srm_wanted: false,
    }
}

fn server_with(limit: u16) -> server::Settings {
    let mut s = default_settings(LIMIT);
    s.max_packet_length = limit;
    s
}

// Whether Puts are to be played. Otherwise Gets are.
fn is_put(rt: &impl Env) -> bool {
    let mut word = [0u8; 16];
    let n = arguments::argument(rt, 1, &mut word);
    check::same(&word[..n], b"put")
}

fn argument(rt: &impl Env, i: usize) -> usize {
    let mut word = [0u8; 20];
    let n = arguments::argument(rt, i, &mut word);
    number(&word[..n])
}

fn limit(rt: &impl Env) -> u16 {
    let n = least(argument(rt, 3), 65535);
    n as u16
}

fn print(rt: &impl Print, p: Progress) {
    let mut out = [0u8; 160];
    let a = put(&mut out, 0, b"records ");
    let b = put_number(&mut out, a, p.records);
    let c = put(&mut out, b, b" bytes ");
    let d = put_number(&mut out, c, p.bytes);
    let n = put(&mut out, d, b"\n");
    write(rt, &out, n);
}

// Returns the progress before the first operation.
fn nothing_yet(rt: &impl Env) -> Progress {
    Progress {
        is_put: is_put(rt),
        operations: argument(rt, 2),
        left: 0,
        given: 0,
        records: 0,
        bytes: 0,
    }
}

fn main(rt: HostRuntime) {
    let zeros = [0u8; 65536];
    let mut c_packet = [0u8; PACKET];
    let mut c_headers = [0u8; PACKET];
    let mut c_body = [0u8; PACKET];
    let mut request = [0u8; PACKET];
    let mut tables = [0u64; TABLES];
    let mut packet = [0u8; PACKET];
    let mut headers = [0u8; PACKET];
    let mut body = [0u8; BODY];
    let mut reply = [0u8; PACKET];
    let p = play(
        nothing_yet(&rt),
        limit(&rt),
        &zeros,
        &mut c_packet,
        &mut c_headers,
        &mut c_body,
        &mut request,
        &mut tables,
        &mut packet,
        &mut headers,
        &mut body,
        &mut reply,
    );
    print(&rt, p);
}
