// Puts a file to an OBEX server, or gets one: `transfer put|get NAME FILE [target HEX] [user TEXT] [password TEXT] [abort N]`. The server's
// bytes come on standard input, and requests go to standard output. What became of each request is told on standard error. With `abort N`
// the user aborts at the packet or the part with the number N, counted from 0.
#![tactic(auto)]

mod file;
mod order;
mod say;
mod words;

use crate::words::{Demand, HEADERS};
use client::calls;
use client_model::{CallResult, Client, Outcome, Settings};
use digest::md5::Octets16;
use files::fault::fail;
use lines::input::read;
use lines::output::{least, print};
use packet::response::{UNAUTHORIZED, is_success};
use std::env::Env;
use std::fs::Files;
use std::io;
use std::io::Read;
use std::num::wrapping_add_usize;
use std::random::RandomSource;

// How many bytes are read at most at once.
const CHUNK: usize = 65536;

const STORE: usize = 65535;

const PATH: usize = 4096;

// Which request the program waits for.
#[derive(Clone, Copy)]
pub enum Stage {
    Connecting,
    // The Connect that answers a challenge.
    Answering,
    Working,
    Leaving,
}

// The stage, as a field of the state.
#[derive(Clone, Copy)]
pub struct At {
    stage: Stage,
}

#[derive(Clone, Copy)]
pub struct State {
    at: At,
    // What of the input store was read, and not taken by the client.
    from: usize,
    to: usize,
    // How long the path is of a file that is written.
    path: usize,
    // How many packets of the operation went and parts came, and how many body bytes.
    events: usize,
    bytes: usize,
    // Whether the user has aborted.
    is_aborted: bool,
    // Whether the server has accepted the operation.
    is_done: bool,
    is_over: bool,
}

// What a call returned, and the state after it.
#[derive(Clone, Copy)]
struct Turned {
    took: CallResult,
    state: State,
}

// What the program does next.
#[derive(Clone, Copy)]
enum Step {
    Connect,
    // Answers a challenge, if the response has one.
    Answer,
    Work,
    Leave,
    Quit,
    Send(usize),
    Hear,
    Give(usize),
    Take(usize),
    Abort,
}

fn begun() -> State {
    State {
        at: At {
            stage: Stage::Connecting,
        },
        from: 0,
        to: 0,
        path: 0,
        events: 0,
        bytes: 0,
        is_aborted: false,
        is_done: false,
        is_over: false,
    }
}

fn with_stage(s: State, stage: Stage) -> State {
    let mut r = s;
    let at = At { stage };
    r.at = at;
    r
}

fn stage_of(s: State) -> Stage {
    let at = s.at;
    at.stage
}

// Returns the first `n` bytes of `s`, or all if there are fewer.
fn front(s: &[u8], n: usize) -> &[u8] {
    if n <= s.len() { &s[0..n] } else { s }
}

// Returns the bytes of `s` from `from` up to `to`, as far as they are there.
fn between(s: &[u8], from: usize, to: usize) -> &[u8] {
    let end = least(to, s.len());
    let start = least(from, end);
    &s[start..end]
}

fn quit(s: State) -> State {
    let mut r = s;
    r.is_over = true;
    r
}

fn is_working(stage: Stage) -> bool {
    if let Stage::Working = stage {
        true
    } else {
        false
    }
}

// ---- what is next

// Returns what follows a request that was answered with `code`.
fn after_done(stage: Stage, code: u8) -> Step {
    match stage {
        Stage::Connecting => {
            if is_success(code) {
                return Step::Work;
            }
            if code == UNAUTHORIZED {
                return Step::Answer;
            }
            Step::Quit
        }
        Stage::Answering => {
            if is_success(code) {
                return Step::Work;
            }
            Step::Quit
        }
        Stage::Working => Step::Leave,
        Stage::Leaving => Step::Quit,
    }
}

// Returns what follows a call that was refused: after the operation's own call the program still takes its leave.
fn after_refused(stage: Stage) -> Step {
    if is_working(stage) {
        return Step::Leave;
    }
    Step::Quit
}

// Whether the user aborts in the place of the packet that waits, or does not take the part that waits.
fn aborts(rt: &impl Env, s: State) -> bool {
    let stage = stage_of(s);
    if !is_working(stage) {
        return false;
    }
    if s.is_aborted {
        return false;
    }
    if !order::has_word(rt, b"abort") {
        return false;
    }
    s.events == order::events_before_abort(rt)
}

fn unless_aborted(rt: &impl Env, s: State, step: Step) -> Step {
    if aborts(rt, s) {
        return Step::Abort;
    }
    step
}

fn size_of(body: Option<usize>) -> usize {
    match body {
        Some(n) => n,
        None => 0,
    }
}

// Returns what the program does next.
fn step_of(rt: &impl Env, s: State, outcome: Outcome) -> Step {
    let stage = stage_of(s);
    match outcome {
        Outcome::Ready => Step::Connect,
        Outcome::Send { length } => unless_aborted(rt, s, Step::Send(length)),
        Outcome::WantsBytes => Step::Hear,
        Outcome::Read { room } => Step::Give(room),
        Outcome::Part { kept: _, body } => unless_aborted(rt, s, Step::Take(size_of(body))),
        Outcome::Done { code, length: _ } => after_done(stage, code),
        Outcome::Stopped { code: _, length: _ } => Step::Leave,
        Outcome::Aborted { code: _, length: _ } => Step::Leave,
        Outcome::End(_) => Step::Quit,
        Outcome::Refused(_) => after_refused(stage),
    }
}

// Returns the number of the operation's name that is told.
fn name_of(rt: &impl Env, stage: Stage) -> usize {
    match stage {
        Stage::Connecting => 0,
        Stage::Answering => 0,
        Stage::Working => { if order::is_put(rt) { 1 } else { 2 } }
        Stage::Leaving => 3,
    }
}

// Whether an outcome ends a request.
fn is_told(outcome: Outcome) -> bool {
    match outcome {
        Outcome::Done { code: _, length: _ } => true,
        Outcome::Stopped { code: _, length: _ } => true,
        Outcome::Aborted { code: _, length: _ } => true,
        Outcome::End(_) => true,
        Outcome::Refused(_) => true,
        _ => false,
    }
}

// Whether an outcome says that the server has accepted the operation.
fn is_accepted(outcome: Outcome) -> bool {
    match outcome {
        Outcome::Done { code, length: _ } => is_success(code),
        _ => false,
    }
}

// Tells what became of a request, and ends the file that was written once the operation is over.
fn told<R: Env + Files>(
    rt: &R,
    err: &impl Print,
    held: &mut Option<R::File>,
    s: State,
    outcome: Outcome,
    path: &[u8; PATH],
) -> State {
    if !is_told(outcome) {
        return s;
    }
    let stage = stage_of(s);
    say::outcome(err, name_of(rt, stage), outcome);
    if !is_working(stage) {
        return s;
    }
    let mut r = s;
    r.is_done = is_accepted(outcome);
    if order::is_put(rt) {
        return r;
    }
    r.is_done = file::end(rt, err, held, front(path, s.path), is_accepted(outcome));
    r
}

// ---- calls

// Calls Connect with the Target, if there is one.
fn connect(
    rt: &impl Env,
    c: Client,
    s: State,
    words: &mut [u8; HEADERS],
    packet: &mut [u8; STORE],
    headers: &mut [u8; STORE],
    body: &mut [u8; STORE],
    request: &mut [u8; STORE],
) -> Turned {
    let n = words::put_target(rt, words);
    Turned {
        took: calls::connect(c, front(words, n), packet, headers, body, request),
        state: s,
    }
}

// Calls Connect again, with the answer to a nonce.
fn answer(
    rt: &impl Env,
    c: Client,
    s: State,
    nonce: Octets16,
    words: &mut [u8; HEADERS],
    packet: &mut [u8; STORE],
    headers: &mut [u8; STORE],
    body: &mut [u8; STORE],
    request: &mut [u8; STORE],
) -> Turned {
    let n = words::put_answered(rt, words, nonce);
    Turned {
        took: calls::connect(c, front(words, n), packet, headers, body, request),
        state: with_stage(s, Stage::Answering),
    }
}

// Returns what the response in the packet store asks for, if there is a password to answer with.
fn demanded(rt: &impl Env, c: Client, packet: &[u8; STORE]) -> Demand {
    if !order::has_word(rt, b"password") {
        return Demand::Nothing;
    }
    words::demand_in(front(packet, c.length))
}

// Calls the operation.
fn work(
    rt: &impl Env,
    c: Client,
    s: State,
    words: &mut [u8; HEADERS],
    packet: &mut [u8; STORE],
    headers: &mut [u8; STORE],
    body: &mut [u8; STORE],
    request: &mut [u8; STORE],
) -> Turned {
    let n = words::put_name(rt, words);
    let state = with_stage(s, Stage::Working);
    if order::is_put(rt) {
        return Turned {
            took: calls::put(c, front(words, n), true, packet, headers, body, request),
            state,
        };
    }
    Turned {
        took: calls::get(c, front(words, n), packet, headers, body, request),
        state,
    }
}

fn with_event(s: State) -> State {
    let mut r = s;
    r.events = wrapping_add_usize(s.events, 1);
    r
}

// Sends the packet that waits. One that cannot be sent ends the transfer.
fn send(
    rt: &impl Print,
    err: &impl Print,
    c: Client,
    s: State,
    length: usize,
    packet: &mut [u8; STORE],
    headers: &mut [u8; STORE],
    body: &mut [u8; STORE],
    request: &mut [u8; STORE],
) -> Turned {
    let sent = rt.write_all(front(request, length));
    let took = calls::request_sent(c, packet, headers, body, request);
    match sent {
        Ok(()) => Turned {
            took,
            state: counted(s),
        },
        Err(e) => {
            fail(err, b"output", &e);
            Turned {
                took,
                state: quit(s),
            }
        }
    }
}

// Returns the state after a packet went: those of the operation are counted.
fn counted(s: State) -> State {
    let stage = stage_of(s);
    if is_working(stage) {
        return with_event(s);
    }
    s
}

fn with_input(s: State, from: usize, to: usize) -> State {
    let mut r = s;
    r.from = from;
    r.to = to;
    r
}

// Reads standard input once if nothing is left of it. If nothing is left after that, the stream has ended.
fn refilled(from: &mut impl Read, s: State, input: &mut [u8; CHUNK]) -> State {
    if s.from < s.to {
        return s;
    }
    let n = read(from, input);
    with_input(s, 0, n)
}

// Offers the server's bytes, or tells the client that the stream has ended.
fn hear(
    from: &mut impl Read,
    c: Client,
    before: State,
    input: &mut [u8; CHUNK],
    packet: &mut [u8; STORE],
    headers: &mut [u8; STORE],
    body: &mut [u8; STORE],
    request: &mut [u8; STORE],
) -> Turned {
    let s = refilled(from, before, input);
    let offered = between(input, s.from, s.to);
    if offered.len() == 0 {
        return Turned {
            took: calls::stream_ended(c, packet, headers, body, request),
            state: s,
        };
    }
    let took = calls::bytes_offered(c, 0, offered, packet, headers, body, request);
    Turned {
        took,
        state: with_input(s, wrapping_add_usize(s.from, took.taken), s.to),
    }
}

fn with_bytes(s: State, n: usize) -> State {
    let mut r = s;
    r.bytes = wrapping_add_usize(s.bytes, n);
    r
}

fn with_abort(s: State) -> State {
    let mut r = s;
    r.is_aborted = true;
    r
}

// Reads once, at most `room` bytes.
fn read_some<F: Read>(held: &mut Option<F>, room: usize, store: &mut [u8]) -> io::Result<usize> {
    if room < store.len() {
        return file::read(held, &mut store[0..room]);
    }
    file::read(held, store)
}

// Gives the next bytes of the file, as many as there is room for. A file that cannot be read on is an Abort.
fn give<F: Read>(
    err: &impl Print,
    held: &mut Option<F>,
    c: Client,
    s: State,
    room: usize,
    chunk: &mut [u8; CHUNK],
    packet: &mut [u8; STORE],
    headers: &mut [u8; STORE],
    body: &mut [u8; STORE],
    request: &mut [u8; STORE],
) -> Turned {
    match read_some(held, room, chunk) {
        Ok(n) => Turned {
            took: calls::body_given(c, front(chunk, n), packet, headers, body, request),
            state: with_bytes(s, n),
        },
        Err(e) => {
            fail(err, b"file", &e);
            Turned {
                took: calls::abort(c, packet, headers, body, request),
                state: with_abort(s),
            }
        }
    }
}

// Makes the file that is written if there is none yet.
fn opened<R: Env + Files + RandomSource>(
    rt: &R,
    err: &impl Print,
    held: &mut Option<R::File>,
    s: State,
    path: &mut [u8; PATH],
) -> State {
    if held.is_some() {
        return s;
    }
    let mut r = s;
    r.path = file::create(rt, err, held, path);
    r
}

// Writes the body bytes of a part. A file that cannot be written is an Abort; it is refused after the last part, and then the transfer has
// failed, since no file was written.
fn take<R: Env + Files + RandomSource>(
    rt: &R,
    err: &impl Print,
    held: &mut Option<R::File>,
    c: Client,
    before: State,
    size: usize,
    path: &mut [u8; PATH],
    packet: &mut [u8; STORE],
    headers: &mut [u8; STORE],
    body: &mut [u8; STORE],
    request: &mut [u8; STORE],
) -> Turned {
    let s = opened(rt, err, held, before, path);
    match file::write(held, front(body, size)) {
        Ok(()) => Turned {
            took: calls::part_taken(c, packet, headers, body, request),
            state: with_bytes(with_event(s), size),
        },
        Err(e) => {
            fail(err, b"write", &e);
            Turned {
                took: calls::abort(c, packet, headers, body, request),
                state: with_abort(s),
            }
        }
    }
}

// ---- the transfer

// Does a step in which the client is called with headers, or makes the last call.
fn begin(
    rt: &impl Env,
    c: Client,
    s: State,
    step: Step,
    words: &mut [u8; HEADERS],
    packet: &mut [u8; STORE],
    headers: &mut [u8; STORE],
    body: &mut [u8; STORE],
    request: &mut [u8; STORE],
) -> Turned {
    match step {
        Step::Connect => connect(rt, c, s, words, packet, headers, body, request),
        Step::Work => work(rt, c, s, words, packet, headers, body, request),
        Step::Leave => Turned {
            took: calls::disconnect(c, b"", packet, headers, body, request),
            state: with_stage(s, Stage::Leaving),
        },
        _ => Turned {
            took: calls::abort(c, packet, headers, body, request),
            state: with_abort(s),
        },
    }
}

// Answers a challenge. Without one, or without a password, the transfer is over.
fn challenged(
    rt: &impl Env,
    last: CallResult,
    s: State,
    words: &mut [u8; HEADERS],
    packet: &mut [u8; STORE],
    headers: &mut [u8; STORE],
    body: &mut [u8; STORE],
    request: &mut [u8; STORE],
) -> Turned {
    let c = last.client;
    match demanded(rt, c, packet) {
        Demand::Nonce(nonce) => answer(rt, c, s, nonce, words, packet, headers, body, request),
        Demand::Nothing => Turned {
            took: last,
            state: quit(s),
        },
    }
}

// Does the next step.
fn turn<R: Env + Files + Print + RandomSource>(
    from: &mut impl Read,
    rt: &R,
    err: &impl Print,
    held: &mut Option<R::File>,
    last: CallResult,
    before: State,
    input: &mut [u8; CHUNK],
    chunk: &mut [u8; CHUNK],
    words: &mut [u8; HEADERS],
    path: &mut [u8; PATH],
    packet: &mut [u8; STORE],
    headers: &mut [u8; STORE],
    body: &mut [u8; STORE],
    request: &mut [u8; STORE],
) -> Turned {
    let c = last.client;
    let outcome = last.outcome;
    let s = told(rt, err, held, before, outcome, path);
    let step = step_of(rt, s, outcome);
    match step {
        Step::Send(n) => send(rt, err, c, s, n, packet, headers, body, request),
        Step::Hear => hear(from, c, s, input, packet, headers, body, request),
        Step::Give(n) => give(err, held, c, s, n, chunk, packet, headers, body, request),
        Step::Take(n) => take(rt, err, held, c, s, n, path, packet, headers, body, request),
        Step::Answer => challenged(rt, last, s, words, packet, headers, body, request),
        Step::Quit => Turned {
            took: last,
            state: quit(s),
        },
        _ => begin(rt, c, s, step, words, packet, headers, body, request),
    }
}

fn is_over(t: Turned) -> bool {
    let s = t.state;
    s.is_over
}

// Takes turns until the transfer is over, and returns the last state. A proved loop has to end, and nothing says that the server does, so
// the turns are counted down from a number that no run uses up.
fn transfer<R: Env + Files + Print + RandomSource>(
    from: &mut impl Read,
    rt: &R,
    err: &impl Print,
    held: &mut Option<R::File>,
    input: &mut [u8; CHUNK],
    chunk: &mut [u8; CHUNK],
    words: &mut [u8; HEADERS],
    path: &mut [u8; PATH],
    packet: &mut [u8; STORE],
    headers: &mut [u8; STORE],
    body: &mut [u8; STORE],
    request: &mut [u8; STORE],
) -> State {
    let settings = Settings {
        max_packet_length: 65535,
        srm_wanted: true,
    };
    let mut t = Turned {
        took: calls::start(settings, packet, headers, body, request),
        state: begun(),
    };
    let mut left = u64::MAX;
    while left > 0 {
        t = turn(
            from, rt, err, held, t.took, t.state, input, chunk, words, path, packet, headers, body,
            request,
        );
        if is_over(t) {
            return t.state;
        }
        left -= 1;
    }
    t.state
}

// Opens the file that is put. One that is got is made once its first bytes come.
fn opened_file<R: Env + Files>(rt: &R, err: &impl Print) -> Option<R::File> {
    if order::is_put(rt) {
        return file::open(rt, err);
    }
    None
}

// Whether there is no file to put.
fn is_missing(rt: &impl Env, is_open: bool) -> bool {
    if order::is_put(rt) {
        return !is_open;
    }
    false
}

fn run<R: Env + Files + Print + RandomSource>(
    from: &mut impl Read,
    rt: &R,
    err: &impl Print,
    held: &mut Option<R::File>,
) {
    let mut input = [0u8; CHUNK];
    let mut chunk = [0u8; CHUNK];
    let mut words = [0u8; HEADERS];
    let mut path = [0u8; PATH];
    let mut packet = [0u8; STORE];
    let mut headers = [0u8; STORE];
    let mut body = [0u8; STORE];
    let mut request = [0u8; STORE];
    let s = transfer(
        from,
        rt,
        err,
        held,
        &mut input,
        &mut chunk,
        &mut words,
        &mut path,
        &mut packet,
        &mut headers,
        &mut body,
        &mut request,
    );
    say::end(err, s.is_done, s.bytes);
}

fn main(rt: HostRuntime) {
    if !order::is_clear(&rt) {
        print(
            &rt.stderr(),
            b"usage: transfer put|get NAME FILE [target HEX] [user TEXT] [password TEXT] [abort N]\n",
        );
        return;
    }
    let mut held = opened_file(&rt, &rt.stderr());
    if is_missing(&rt, held.is_some()) {
        say::end(&rt.stderr(), false, 0);
        return;
    }
    run(&mut rt.stdin(), &rt, &rt.stderr(), &mut held);
}
