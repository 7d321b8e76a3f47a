// Offering the peer's bytes to the engine. Bytes that the engine does not take are offered again. A read of standard input that fails is
// reported on standard error, and the engine is told that the stream has ended: no more bytes will come.
ghost use Rattle.std.specs.Prelude.{◌≡◌, length, ◌≤◌, IfOk};
ghost use Rattle.model.specs.Step.{stores};
ghost use Rattle.host.specs.Rest.{ended_by};
ghost use Rattle.host.specs.Feed.{front_of, Refilled, Feeds};

use engine::calls;
use files::fault::{fail, number_of};
use lines::output::print;
use server::{CallResult, Engine, Outcome, end_number, refusal_number};
use std::io;
use std::io::{ErrorKind, Print, Read};

// The part of the input store that was read and that the engine has not taken yet.
#[derive(Clone, Copy)]
pub struct Rest {
    pub at: usize,
    pub end: usize,
}

// What the last call returned, and the input that is left.
#[derive(Clone, Copy)]
pub struct Step {
    pub took: CallResult,
    pub rest: Rest,
}

// Returns the number of the end or of the refusal that `outcome` is, or 0 if the session goes on. The engine never refuses a program that
// makes the calls that it waits for.
pub fn over(outcome: Outcome) -> u8
    ensures { result ≡ ended_by outcome }
{
    match outcome {
        Outcome::WantsBytes => 0,
        Outcome::Reply { length: _ } => 0,
        Outcome::Request(_) => 0,
        Outcome::End(end) => end_number(end),
        Outcome::Refused(refusal) => refusal_number(refusal),
    }
}

// How many bytes at the front of an input store stay unused, if it is as long as `INPUT`. A program's stores lie close together, and some
// processors copy at a tenth of their speed if the target lies a few bytes behind the source, counted from the start of a page; half a
// page between the two avoids that (docs/PERFORMANCE.md).
const LEAD: usize = 2048;

// How long an input store is of which a read of standard input fills 65,536 bytes.
pub const INPUT: usize = 67584;

// How often a read is tried again that a signal has interrupted.
const TRIES: usize = 1000;

// The system's number of the error of a read that waited too long: try again.
const EAGAIN: i32 = 11;

// Reads standard input once. A process that is stopped and continued may find its read interrupted, which is no failure.
fn read_once(from: &mut impl Read, s: &mut [u8]) -> io::Result<usize>
    ensures { IfOk result (λ n. n ≤ length s.new) }
{
    let mut tries = TRIES;
    while tries > 0 {
        match from.read(s) {
            Ok(n) => {
                return Ok(n);
            }
            Err(e) => {
                if e.kind() != ErrorKind::Interrupted {
                    return Err(e);
                }
            }
        }
        tries -= 1;
    }
    from.read(s)
}

// Tells on standard error that standard input could not be read, and why. A socket whose time is up says that it should be tried again.
fn report_input(err: &impl Print, e: &io::Error) {
    if number_of(e) == EAGAIN {
        print(err, b"input: nothing came in time\n");
        return;
    }
    fail(err, b"input", e);
}

// Returns how many bytes were read. None were if the stream has ended or cannot be read; the latter is reported.
fn read(from: &mut impl Read, err: &impl Print, s: &mut [u8]) -> usize
    ensures { result ≤ length s.new }
{
    match read_once(from, s) {
        Ok(n) => n,
        Err(e) => {
            report_input(err, &e);
            0
        }
    }
}

// Returns where a read of standard input begins in a store of `len` bytes.
fn front_of(len: usize) -> usize
    ensures { result ≡ front_of len }
{
    if len < INPUT {
        return 0;
    }
    LEAD
}

// Reads standard input once if nothing is left. If nothing is left after that, the stream has ended.
fn refilled(from: &mut impl Read, err: &impl Print, rest: Rest, input: &mut [u8]) -> Rest
    ensures { Refilled rest input.old result input.new }
{
    if rest.at < rest.end {
        if rest.end <= input.len() {
            return rest;
        }
    }
    let at = front_of(input.len());
    let n = read(from, err, &mut input[at..]);
    Rest { at, end: at + n }
}

// Offers the engine what is left of the input, or tells it that the stream has ended. A call never takes more than it was offered, so what
// is left afterwards lies in `input`.
pub fn feed(
    from: &mut impl Read,
    err: &impl Print,
    e: Engine,
    rest: Rest,
    input: &mut [u8],
    tables: &[u64; 320],
    packet: &mut [u8; 65535],
    headers: &mut [u8; 65535],
    body: &mut [u8; 1048576],
    reply: &mut [u8; 65535],
) -> Step
    ensures { Feeds e rest input.old (stores packet.old headers.old body.old
        reply.old) tables.now result input.new (stores packet.new headers.new
        body.new reply.new) }
{
    let r = refilled(from, err, rest, input);
    let at = r.at;
    let end = r.end;
    if at == end {
        let took = calls::stream_ended(e, packet, headers, body, reply);
        return Step { took, rest: r };
    }
    let took = calls::bytes_offered(e, 0, &input[at..end], tables, packet, headers, body, reply);
    Step {
        took,
        rest: Rest {
            at: at + took.taken,
            end,
        },
    }
}
