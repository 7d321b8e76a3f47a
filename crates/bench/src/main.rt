// Plays one session: the peer's bytes come on standard input, and the program prints a line for each thing that the engine does.
#![tactic(auto)]

mod shown;

use engine::calls;
use host::answers::answer;
use host::feed::{Rest, Step, feed, over};
use server::{Outcome, default_settings};
use std::io::Read;
use std::random::RandomSource;

// Makes the call that the last call's outcome asks for. After the end it makes none.
fn turn(
    from: &mut impl Read,
    rt: &(impl Print + RandomSource),
    err: &impl Print,
    p: Step,
    input: &mut [u8; 65536],
    tables: &mut [u64; 320],
    packet: &mut [u8; 65535],
    headers: &mut [u8; 65535],
    body: &mut [u8; 1048576],
    reply: &mut [u8; 65535],
) -> Step {
    let rest = p.rest;
    let last = p.took;
    let e = last.engine;
    let outcome = last.outcome;
    match outcome {
        Outcome::WantsBytes => feed(
            from, err, e, rest, input, tables, packet, headers, body, reply,
        ),
        Outcome::Reply { length } => {
            shown::reply(rt, reply, length);
            let took = calls::reply_taken(e, packet, headers, body, reply);
            Step { took, rest }
        }
        Outcome::Request(request) => {
            shown::request(rt, request);
            let took = answer(rt, e, request, tables, packet, headers, body, reply);
            Step { took, rest }
        }
        _ => p,
    }
}

// Plays the session. A proved loop has to end, and nothing says that the input does, so the turns are counted down from a number that no
// run uses up.
fn play(
    from: &mut impl Read,
    rt: &(impl Print + RandomSource),
    err: &impl Print,
    input: &mut [u8; 65536],
    tables: &mut [u64; 320],
    packet: &mut [u8; 65535],
    headers: &mut [u8; 65535],
    body: &mut [u8; 1048576],
    reply: &mut [u8; 65535],
) {
    let took = calls::start(
        default_settings(1024),
        b"",
        tables,
        packet,
        headers,
        body,
        reply,
    );
    let mut p = Step {
        took,
        rest: Rest { at: 0, end: 0 },
    };
    let mut left = u64::MAX;
    while left > 0 {
        let last = p.took;
        let outcome = last.outcome;
        let number = over(outcome);
        if number != 0 {
            shown::end(rt, number);
            return;
        }
        p = turn(
            from, rt, err, p, input, tables, packet, headers, body, reply,
        );
        left -= 1;
    }
}

// Lends the engine its stores. The engine keeps bodies of at most 1,024 bytes, so it uses no more of the body store, which is as long as
// the other programs' are.
fn main(rt: HostRuntime) {
    let mut input = [0u8; 65536];
    let mut tables = [0u64; 320];
    let mut packet = [0u8; 65535];
    let mut headers = [0u8; 65535];
    let mut body = [0u8; 1048576];
    let mut reply = [0u8; 65535];
    play(
        &mut rt.stdin(),
        &rt,
        &rt.stderr(),
        &mut input,
        &mut tables,
        &mut packet,
        &mut headers,
        &mut body,
        &mut reply,
    );
}
