// The turns of a session: each makes the call that the last call's outcome asks for, and notes it in the log.
ghost use Rattle.std.specs.Prelude.{◌≡◌, []};
ghost use Rattle.model.specs.Step.{stores};
ghost use Rattle.model.specs.Runs.{handed};
ghost use Rattle.server.specs.declared.Outcome.TheVariants as outcome;
ghost use Rattle.reception.specs.Answers.{lending};
ghost use Rattle.receiver.specs.Turning.{Turned, Run};

use crate::answers::{decide, user_of};
use crate::checks::Try;
use crate::conf::{REALM, Said, TEXT, conf_in, kept, put_realm, read_text, realm_in, settings_of};
use crate::input::{INPUT, Rest, refilled};
use crate::log::{Framed, WORK, lay, write_out};
use crate::path::part;
use crate::record::{Tried, no_record};
use crate::session::{NO_BITS, Session, note, note_packet, with_log};
use crate::system::{Held, Text, answer_of};
use crate::{checks, clock, session, tell};
use digest::md5::octets;
use engine::calls;
use files::path::front;
use filing::conf::Conf;
use filing::content::{Event, kind_of};
use filing::payload::CheckMade;
use lines::output::put;
use reception::answer::{Answer, Decision};
use reception::call::{BODY, call, length_header};
use reception::decide::after_write;
use reception::note::{Note, Part, broken, note_for};
use server::{CallResult, Engine, HostRequest, Outcome, end_number, refusal_number};
use std::env::Env;
use std::fs::{Files, OpenFile};
use std::io::{Read, Seek, Write};
use std::num::wrapping_add_usize;
use std::random::RandomSource;
use std::time::Clock;

// Where a session stands: what the last call returned, the input that is left, what the session keeps, the text of its settings, what became of
// the record that waited before the last call, and the receiver's own number of the end, or 0.
#[derive(Clone, Copy)]
pub(crate) struct Receiving {
    pub took: CallResult,
    pub rest: Rest,
    pub session: Session,
    pub said: Said,
    pub tried: Tried,
    pub left: u8,
}

// Returns where the session stands after a call.
fn after(s: Receiving, took: CallResult, rest: Rest, session: Session, tried: Tried) -> Receiving
    ensures took { result.took ≡ took }
    ensures tried { result.tried ≡ tried }
{
    let said = s.said;
    Receiving {
        took,
        rest,
        session,
        said,
        tried,
        left: 0,
    }
}

// Returns where the session stands once it is left without a call.
fn leave(s: Receiving, session: Session, number: u8) -> Receiving
    ensures { result.took ≡ s.took }
{
    let took = s.took;
    let rest = s.rest;
    let said = s.said;
    let tried = s.tried;
    Receiving {
        took,
        rest,
        session,
        said,
        tried,
        left: number,
    }
}

// ---- what is noted

// Notes an event whose parts are at hand. The reply of a call that says that it was sent is not: its frame is laid before the call.
fn note_event<F: Write>(
    rt: &(impl Env + Clock),
    err: &impl Print,
    held: &mut Held<F>,
    s: Session,
    event: Event,
    parts: Part,
    path: &[u8],
    packet: &[u8; 65535],
    work: &mut [u8; WORK],
) -> Session {
    match parts {
        Part::Nothing => note(rt, err, held, s, event, b"", b"", work),
        Part::Packet(n) => note_packet(rt, err, held, s, event, front(packet, n), work),
        Part::Reply => s,
        Part::Length(size) => {
            let header = length_header(size);
            note(rt, err, held, s, event, &header, path, work)
        }
        Part::Nonce(nonce) => {
            let bytes = octets(nonce);
            note(rt, err, held, s, event, &bytes, b"", work)
        }
    }
}

// Notes the bytes of a packet that will never become whole, if there are some.
fn note_broken<F: Write>(
    rt: &(impl Env + Clock),
    err: &impl Print,
    held: &mut Held<F>,
    s: Session,
    n: usize,
    packet: &[u8; 65535],
    work: &mut [u8; WORK],
) -> Session {
    if n == 0 {
        return s;
    }
    note_packet(rt, err, held, s, Event::Broken, front(packet, n), work)
}

// Notes a call, from the answer from which it was made and from what it returned.
fn note_call<F: Write>(
    rt: &(impl Env + Clock),
    err: &impl Print,
    held: &mut Held<F>,
    s: Session,
    answer: Answer,
    before: Engine,
    took: CallResult,
    path: &[u8],
    packet: &[u8; 65535],
    work: &mut [u8; WORK],
) -> Session {
    let begun = note_broken(rt, err, held, s, broken(answer, before, took), packet, work);
    match note_for(answer, before, took) {
        Note::Nothing => begun,
        Note::Event(event, parts) => note_event(
            rt, err, held, begun, event, parts, path, packet, work,
        ),
    }
}

// ---- the client's bytes

// Returns the window of password checks of an engine.
fn window_of(e: Engine) -> u64 {
    let peer = e.peer;
    peer.window
}

// Returns the answer that the client's bytes are: there are some, or the stream has ended.
fn heard(at: usize, end: usize) -> Answer {
    if at == end {
        return Answer::End;
    }
    Answer::Offer
}

// Offers the client's bytes, and notes them once a packet is whole. A check that the engine stops shows in its window, which no other offer changes.
fn hear<R: Env + Files + Clock>(
    rt: &R,
    err: &impl Print,
    held: &mut Held<R::File>,
    s: Receiving,
    from: &mut impl Read,
    input: &mut [u8; INPUT],
    work: &mut [u8; WORK],
    tables: &mut [u64; 320],
    packet: &mut [u8; 65535],
    headers: &mut [u8; 65535],
    body: &mut [u8; BODY],
    reply: &mut [u8; 65535],
) -> Receiving
    requires { handed s.took.outcome (stores packet.old headers.old body.old reply.old) ≡ [] }
    ensures { Turned s.took (stores packet.old headers.old body.old reply.old)
        tables.old result (stores packet.new headers.new body.new reply.new)
        tables.new }
{
    let keeps = s.session;
    let last = s.took;
    let rest = s.rest;
    let e = last.engine;
    let id = keeps.id;
    let r = refilled(from, rt, err, rest, id, input);
    let at = r.at;
    let end = r.end;
    let answer = heard(at, end);
    let took = call(
        e,
        answer,
        part(input, at, end),
        tables,
        packet,
        headers,
        body,
        reply,
    );
    let noted = note_call(rt, err, held, keeps, answer, e, took, b"", packet, work);
    let later = took.engine;
    if window_of(e) != window_of(later) {
        checks::add_stop(rt);
    }
    let left = Rest {
        at: wrapping_add_usize(at, took.taken),
        end,
    };
    after(s, took, left, noted, no_record())
}

// ---- replies

// Writes the frame of a reply that was laid before the call, if the call is noted.
fn note_sent<F: Write>(
    rt: &(impl Env + Clock),
    err: &impl Print,
    held: &mut Held<F>,
    s: Session,
    framed: Framed,
    before: Engine,
    took: CallResult,
    work: &[u8; WORK],
) -> Session {
    match note_for(Answer::Sent, before, took) {
        Note::Nothing => s,
        Note::Event(_, _) => {
            let log = s.log;
            with_log(rt, err, s, write_out(held, log, framed, work))
        }
    }
}

// Sends the reply, and says that it was taken only if it was. A reply that cannot be sent ends the session. The frame of the reply is laid before the
// call, since the next reply may stand in the store after it.
fn send<F: Write>(
    rt: &(impl Env + Clock + Print),
    err: &impl Print,
    held: &mut Held<F>,
    s: Receiving,
    length: usize,
    work: &mut [u8; WORK],
    tables: &mut [u64; 320],
    packet: &mut [u8; 65535],
    headers: &mut [u8; 65535],
    body: &mut [u8; BODY],
    reply: &mut [u8; 65535],
) -> Receiving
    requires { handed s.took.outcome (stores packet.old headers.old body.old reply.old) ≡ [] }
    ensures { Turned s.took (stores packet.old headers.old body.old reply.old)
        tables.old result (stores packet.new headers.new body.new reply.new)
        tables.new }
{
    let keeps = s.session;
    let last = s.took;
    let rest = s.rest;
    let e = last.engine;
    let id = keeps.id;
    let log = keeps.log;
    let written = rt.write_all(front(reply, length));
    match after_write(written.is_ok()) {
        Decision::Make(answer) => {
            let framed = lay(
                log,
                kind_of(Event::Replied),
                clock::now(rt),
                front(reply, length),
                work,
            );
            let took = call(e, answer, b"", tables, packet, headers, body, reply);
            after(
                s,
                took,
                rest,
                note_sent(rt, err, held, keeps, framed, e, took, work),
                no_record(),
            )
        }
        Decision::Leave(number) => {
            tell::no_output(rt, err, id, answer_of(written));
            leave(s, keeps, number)
        }
    }
}

// ---- requests

// Puts the letter of a check of a password, if there was one, and tells of it.
fn end_check<F: Write + Seek + OpenFile + Drop>(
    rt: &(impl Env + Clock),
    err: &impl Print,
    held: &mut Held<F>,
    s: Session,
    answer: Answer,
    before: Engine,
    took: CallResult,
    check: Try,
    user: &[u8],
) {
    match note_for(answer, before, took) {
        Note::Nothing => {}
        Note::Event(event, _) => match event {
            Event::Checked(made) => put_check(rt, err, held, s, made, check, user),
            _ => {}
        },
    }
}

// Puts the letter of a check of a password, and tells of it.
fn put_check<F: Write + Seek + OpenFile + Drop>(
    rt: &(impl Env + Clock),
    err: &impl Print,
    held: &mut Held<F>,
    s: Session,
    made: CheckMade,
    check: Try,
    user: &[u8],
) {
    let letter = checks::letter_of(made);
    let error = checks::end(held, check, letter);
    let id = s.id;
    if error != 0 {
        tell::no_checks(rt, err, id, error);
    }
    tell::checked(rt, err, id, user, letter);
}

// Answers a request: decides, makes the call, and notes it.
fn answer<R: Env + Files + Clock + RandomSource>(
    rt: &R,
    err: &impl Print,
    held: &mut Held<R::File>,
    s: Receiving,
    request: HostRequest,
    work: &mut [u8; WORK],
    tables: &mut [u64; 320],
    packet: &mut [u8; 65535],
    headers: &mut [u8; 65535],
    body: &mut [u8; BODY],
    reply: &mut [u8; 65535],
) -> Receiving
    requires { s.took.outcome ≡ outcome.Request request }
    ensures { Turned s.took (stores packet.old headers.old body.old reply.old)
        tables.old result (stores packet.new headers.new body.new reply.new)
        tables.new }
{
    let last = s.took;
    let rest = s.rest;
    let e = last.engine;
    let keeps = s.session;
    let target = e.target;
    let said = s.said;
    let d = decide(
        rt, err, held, keeps, request, target, said, packet, headers, body, work,
    );
    let decision = d.decision;
    let session = d.session;
    let check = d.check;
    let from = d.from;
    let to = d.to;
    let tried = d.tried;
    match decision {
        Decision::Make(a) => {
            let took = call(
                e,
                a,
                part(work, from, to),
                tables,
                packet,
                headers,
                body,
                reply,
            );
            end_check(
                rt,
                err,
                held,
                session,
                a,
                e,
                took,
                check,
                user_of(request, packet),
            );
            let mut path = [0u8; 400];
            let n = put(&mut path, 0, part(work, from, to));
            let noted = note_call(
                rt,
                err,
                held,
                session,
                a,
                e,
                took,
                front(&path, n),
                packet,
                work,
            );
            after(s, took, rest, noted, tried)
        }
        Decision::Leave(number) => leave(s, session, number),
    }
}

// Makes the call that the last call's outcome asks for. After the end it makes none.
fn turn<R: Env + Files + Clock + Print + RandomSource>(
    from: &mut impl Read,
    rt: &R,
    err: &impl Print,
    held: &mut Held<R::File>,
    s: Receiving,
    input: &mut [u8; INPUT],
    work: &mut [u8; WORK],
    tables: &mut [u64; 320],
    packet: &mut [u8; 65535],
    headers: &mut [u8; 65535],
    body: &mut [u8; BODY],
    reply: &mut [u8; 65535],
) -> Receiving
    ensures { Turned s.took (stores packet.old headers.old body.old reply.old)
        tables.old result (stores packet.new headers.new body.new reply.new)
        tables.new }
{
    let last = s.took;
    let outcome = last.outcome;
    match outcome {
        Outcome::WantsBytes => hear(
            rt, err, held, s, from, input, work, tables, packet, headers, body, reply,
        ),
        Outcome::Reply { length } => send(
            rt, err, held, s, length, work, tables, packet, headers, body, reply,
        ),
        Outcome::Request(request) => answer(
            rt, err, held, s, request, work, tables, packet, headers, body, reply,
        ),
        _ => s,
    }
}

// ---- the session

// Returns the number at which the session is over, or 0.
fn end_of(s: Receiving) -> u8 {
    if s.left != 0 {
        return s.left;
    }
    let last = s.took;
    let outcome = last.outcome;
    match outcome {
        Outcome::End(end) => end_number(end),
        Outcome::Refused(refusal) => refusal_number(refusal),
        _ => 0,
    }
}

// Ends the log, unless the end of the stream has done so, and tells how the session ended.
fn end<F: Write>(
    rt: &(impl Env + Clock),
    err: &impl Print,
    held: &mut Held<F>,
    s: Receiving,
    number: u8,
    work: &mut [u8; WORK],
) {
    let keeps = s.session;
    if number > 2 {
        note(rt, err, held, keeps, Event::Ended(number), b"", b"", work);
    }
    let id = keeps.id;
    tell::end(rt, err, id, number);
}

// Receives in one session, and returns where it stands at its end. A proved loop has to end, and nothing says that the input does, so the turns are
// counted down from a number that no run uses up.
fn receive<R: Env + Files + Clock + Print + RandomSource>(
    from: &mut impl Read,
    rt: &R,
    err: &impl Print,
    held: &mut Held<R::File>,
    first: Receiving,
    input: &mut [u8; INPUT],
    work: &mut [u8; WORK],
    tables: &mut [u64; 320],
    packet: &mut [u8; 65535],
    headers: &mut [u8; 65535],
    body: &mut [u8; BODY],
    reply: &mut [u8; 65535],
) -> Receiving
    requires { handed first.took.outcome (stores packet.old headers.old body.old reply.old) ≡ [] }
    ensures { Run (lending first.took.engine (stores packet.old headers.old body.old
        reply.old) tables.old) result (stores packet.new headers.new body.new
        reply.new) tables.new }
{
    let mut s = first;
    let mut left = u64::MAX;
    while left > 0 {
        let number = end_of(s);
        if number != 0 {
            end(rt, err, held, s, number, work);
            return s;
        }
        s = turn(
            from, rt, err, held, s, input, work, tables, packet, headers, body, reply,
        );
        left -= 1;
    }
    s
}

// Begins a session with these settings, and receives in it. Without random bits for its name nothing is taken.
fn begin<R: Env + Files + Clock + Print + RandomSource>(
    from: &mut impl Read,
    rt: &R,
    err: &impl Print,
    held: &mut Held<R::File>,
    conf: Conf,
    said: Said,
    input: &mut [u8; INPUT],
    work: &mut [u8; WORK],
    tables: &mut [u64; 320],
    packet: &mut [u8; 65535],
    headers: &mut [u8; 65535],
    body: &mut [u8; BODY],
    reply: &mut [u8; 65535],
) {
    let numbers = conf.numbers;
    let flags = conf.flags;
    let mut realm = [0u8; REALM];
    let n = put_realm(said, &mut realm);
    let made = session::made_folder(rt, clock::now(rt));
    let id = made.id;
    if made.error == NO_BITS {
        tell::no_randomness(rt, err, id);
        return;
    }
    tell::opened(rt, err, id);
    let keeps = session::begin(
        rt,
        err,
        held,
        made,
        Event::Opened(numbers, flags),
        realm_in(&realm, n),
        work,
    );
    let settings = settings_of(numbers, flags);
    let took = calls::start(
        settings,
        realm_in(&realm, n),
        tables,
        packet,
        headers,
        body,
        reply,
    );
    let first = Receiving {
        took,
        rest: Rest { at: 0, end: 0 },
        session: keeps,
        said,
        tried: no_record(),
        left: 0,
    };
    receive(
        from, rt, err, held, first, input, work, tables, packet, headers, body, reply,
    );
}

// Reads the settings, and receives in one session with them. With a bad line, or without the file, nothing is taken.
pub(crate) fn run<R: Env + Files + Clock + Print + RandomSource>(
    from: &mut impl Read,
    rt: &R,
    err: &impl Print,
    held: &mut Held<R::File>,
    input: &mut [u8; INPUT],
    work: &mut [u8; WORK],
    tables: &mut [u64; 320],
    packet: &mut [u8; 65535],
    headers: &mut [u8; 65535],
    body: &mut [u8; BODY],
    reply: &mut [u8; 65535],
) {
    let mut text = [0u8; TEXT];
    match read_text(rt, &mut text) {
        Text::Bytes(k) => {
            let conf = conf_in(&text, k);
            if conf.wrong != 0 {
                tell::bad_conf(rt, err, conf.wrong);
                return;
            }
            let said = kept(text, k, conf);
            begin(
                from, rt, err, held, conf, said, input, work, tables, packet, headers, body, reply,
            );
        }
        Text::Failed(error) => tell::no_conf(rt, err, error),
    }
}
