// A server for a person: the peer's bytes come on standard input, and replies go to standard output. A Put writes a file of the working
// folder, or of the folder of the service that its connection was opened for, and a Get reads one. The program tells what it does on
// standard error, a line for each operation. With the argument `--keep` it refuses a Put whose Name a file has already.
#![tactic(auto)]

mod answers;
mod file;
mod folder;
mod log;
mod path;

use crate::answers::{CHUNK, answer};
use engine::calls;
use files::fault::fail;
use files::path::front;
use host::feed::{INPUT, Rest, Step, feed, over};
use lines::arguments::{argument, has_argument};
use lines::output::print;
use server::{CallResult, Engine, Operation, Outcome, Settings, default_settings};
use std::env::Env;
use std::fs::Files;
use std::io::Read;
use std::process::id;
use std::random::RandomSource;

// The last step, and whether a reply could not be sent.
#[derive(Clone, Copy)]
struct Serving {
    step: Step,
    lost: bool,
}

// Returns the original's settings, with Single Response Mode (SRM), and with records of 1 MiB at most.
fn settings() -> Settings {
    let mut s = default_settings(1048576);
    s.srm_supported = true;
    s
}

fn after_call(took: CallResult, rest: Rest) -> Serving {
    Serving {
        step: Step { took, rest },
        lost: false,
    }
}

// Tells what the peer's bytes led to without a request: a reply of the engine's own, or the end inside an operation.
fn tell(err: &impl Print, before: Operation, outcome: Outcome, opcode: u8, code: u8) {
    match outcome {
        Outcome::Reply { length: _ } => log::own_reply(err, opcode, code),
        Outcome::End(_) => log::cut_off(err, before),
        _ => {}
    }
}

// Offers the peer's bytes, and tells what they led to.
fn hear(
    from: &mut impl Read,
    err: &impl Print,
    e: Engine,
    rest: Rest,
    input: &mut [u8; INPUT],
    tables: &mut [u64; 320],
    packet: &mut [u8; 65535],
    headers: &mut [u8; 65535],
    body: &mut [u8; 1048576],
    reply: &mut [u8; 65535],
) -> Serving {
    let step = feed(
        from, err, e, rest, input, tables, packet, headers, body, reply,
    );
    let took = step.took;
    let before = e.operation;
    let outcome = took.outcome;
    tell(err, before, outcome, packet[0], reply[0]);
    Serving { step, lost: false }
}

// Sends the reply, and says that it was taken only if it was. A reply that cannot be sent ends the session.
fn send(
    rt: &impl Print,
    err: &impl Print,
    e: Engine,
    length: usize,
    s: Serving,
    packet: &mut [u8; 65535],
    headers: &mut [u8; 65535],
    body: &mut [u8; 1048576],
    reply: &mut [u8; 65535],
) -> Serving {
    let step = s.step;
    if let Err(e) = rt.write_all(front(reply, length)) {
        fail(err, b"output", &e);
        return Serving { step, lost: true };
    }
    let rest = step.rest;
    after_call(calls::reply_taken(e, packet, headers, body, reply), rest)
}

// Makes the call that the last call's outcome asks for. After the end it makes none.
fn turn<R: Env + Files + Print + RandomSource>(
    from: &mut impl Read,
    rt: &R,
    err: &impl Print,
    sent: &mut Option<R::File>,
    process: u32,
    s: Serving,
    input: &mut [u8; INPUT],
    chunk: &mut [u8; CHUNK],
    tables: &mut [u64; 320],
    packet: &mut [u8; 65535],
    headers: &mut [u8; 65535],
    body: &mut [u8; 1048576],
    reply: &mut [u8; 65535],
) -> Serving {
    let before = s.step;
    let rest = before.rest;
    let last = before.took;
    let e = last.engine;
    let outcome = last.outcome;
    match outcome {
        Outcome::WantsBytes => hear(
            from, err, e, rest, input, tables, packet, headers, body, reply,
        ),
        Outcome::Reply { length } => send(rt, err, e, length, s, packet, headers, body, reply),
        Outcome::Request(request) => after_call(
            answer(
                rt, err, sent, process, e, request, chunk, tables, packet, headers, body, reply,
            ),
            rest,
        ),
        _ => s,
    }
}

// Returns the number at which the session is over, or 0. A session whose reply could not be sent is over as one whose stream has ended.
fn end_of(s: Serving) -> u8 {
    if s.lost {
        return 1;
    }
    let step = s.step;
    let last = step.took;
    let outcome = last.outcome;
    over(outcome)
}

// Serves one session. A proved loop has to end, and nothing says that the input does, so the turns are counted down from a number that no
// run uses up.
fn serve<R: Env + Files + Print + RandomSource>(
    from: &mut impl Read,
    rt: &R,
    err: &impl Print,
    sent: &mut Option<R::File>,
    process: u32,
    input: &mut [u8; INPUT],
    chunk: &mut [u8; CHUNK],
    tables: &mut [u64; 320],
    packet: &mut [u8; 65535],
    headers: &mut [u8; 65535],
    body: &mut [u8; 1048576],
    reply: &mut [u8; 65535],
) {
    let took = calls::start(settings(), b"", tables, packet, headers, body, reply);
    let mut s = after_call(took, Rest { at: 0, end: 0 });
    let mut left = u64::MAX;
    while left > 0 {
        let number = end_of(s);
        if number != 0 {
            log::end(err, number);
            return;
        }
        s = turn(
            from, rt, err, sent, process, s, input, chunk, tables, packet, headers, body, reply,
        );
        left -= 1;
    }
}

// Returns whether the program was started with no argument, or with `--keep` alone.
fn is_started_right(rt: &impl Env) -> bool {
    if !has_argument(rt, 1) {
        return true;
    }
    if has_argument(rt, 2) {
        return false;
    }
    let mut word = [0u8; 16];
    let n = argument(rt, 1, &mut word);
    check::same(&word[..n], b"--keep")
}

fn main(rt: HostRuntime) {
    if !is_started_right(&rt) {
        print(&rt.stderr(), b"usage: serve [--keep]\n");
        return;
    }
    let mut sent = None;
    let mut input = [0u8; INPUT];
    let mut chunk = [0u8; CHUNK];
    let mut tables = [0u64; 320];
    let mut packet = [0u8; 65535];
    let mut headers = [0u8; 65535];
    let mut body = [0u8; 1048576];
    let mut reply = [0u8; 65535];
    serve(
        &mut rt.stdin(),
        &rt,
        &rt.stderr(),
        &mut sent,
        id(rt.process()),
        &mut input,
        &mut chunk,
        &mut tables,
        &mut packet,
        &mut headers,
        &mut body,
        &mut reply,
    );
}
