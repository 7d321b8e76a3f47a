// The server's end: the calls on the engine, which records its host got, and what is passed on.
use crate::Pair;
use crate::answers::{Answer, Answers};
use crate::script::{BODY, Content, STORE, server_settings};
use crate::show::LONGEST;
use crate::user::first_half;
use digest::md5::{Octets16, octets16_at};
use engine::calls;
use lines::store::{between, place};
use lines::text::Text;
use server::{CallResult, Engine, HostRequest, Outcome, Settings, refusal_number};
use std::num::wrapping_add_usize;

// How many bytes the lines of records take up at most. What passes that is left out.
const RECORDS: usize = 131072;

// How many numbers the table store has.
const TABLES: usize = 320;

// The engine, what its last call returned, its stores, and what its host has.
#[derive(Drop)]
pub struct Host {
    pub engine: Engine,
    pub outcome: Outcome,
    pub answers: Answers,
    // The lines of the records that calls have handed over.
    pub records: Text<RECORDS>,
    // The number of the host's next nonce.
    pub nonces: usize,
    tables: [u64; TABLES],
    packet: [u8; STORE],
    headers: [u8; STORE],
    body: [u8; BODY],
    reply: [u8; STORE],
}

impl Host {
    // Returns a host whose engine has not started: it has no stores yet.
    pub(crate) fn new(answers: Answers) -> Host {
        let took = calls::start(
            server_settings(),
            b"",
            &[],
            &mut [],
            &mut [],
            &mut [],
            &mut [],
        );
        Host {
            engine: took.engine,
            outcome: took.outcome,
            answers,
            records: Text::new(),
            nonces: 1,
            tables: [0u64; TABLES],
            packet: [0u8; STORE],
            headers: [0u8; STORE],
            body: [0u8; BODY],
            reply: [0u8; STORE],
        }
    }

    // Starts an engine.
    pub(crate) fn start(&mut self, settings: Settings) {
        let took = calls::start(
            settings,
            b"",
            &self.tables,
            &mut self.packet,
            &mut self.headers,
            &mut self.body,
            &mut self.reply,
        );
        self.engine = took.engine;
        self.outcome = took.outcome;
    }

    // Offers bytes on the way up, and returns how many the engine took. Some of them are put into the packet store first, as by a host that
    // reads straight into it.
    fn hear(&mut self, bytes: &[u8]) -> usize {
        let n = place(&mut self.packet, self.engine.begun, first_half(bytes));
        let took = calls::bytes_offered(
            self.engine,
            n,
            &bytes[n..],
            &self.tables,
            &mut self.packet,
            &mut self.headers,
            &mut self.body,
            &mut self.reply,
        );
        self.engine = took.engine;
        self.outcome = took.outcome;
        took.taken
    }

    // Puts the line of a record behind those before, if the last call has handed one over.
    fn keep_record(&mut self) {
        let Outcome::Request(HostRequest::Put { kept, body }) = self.outcome else {
            return;
        };
        self.records.put(b"record ");
        self.records
            .put_hex(between(&self.headers, 0, kept), LONGEST);
        self.records.put(b" ");
        match body {
            Some(n) => self.records.put_hex(between(&self.body, 0, n), LONGEST),
            None => self.records.put(b"none"),
        }
        self.records.put(b"\n");
    }

    // Tells the engine that a reply was taken.
    fn take_reply(&mut self) {
        let took = calls::reply_taken(
            self.engine,
            &mut self.packet,
            &mut self.headers,
            &mut self.body,
            &mut self.reply,
        );
        self.engine = took.engine;
        self.outcome = took.outcome;
    }

    // Gives an answer, whose bytes stand in `words`. `content` is what is left of an object.
    fn give(&mut self, answer: Answer, content: Content, words: &[u8]) -> CallResult {
        let e = self.engine;
        let tables = &mut self.tables;
        let packet = &mut self.packet;
        let headers = &mut self.headers;
        let body = &mut self.body;
        let reply = &mut self.reply;
        match answer {
            Answer::Reply { code, headers: n } => calls::reply_given(
                e,
                code,
                between(words, 0, n),
                tables,
                packet,
                headers,
                body,
                reply,
            ),
            Answer::Object {
                headers: n,
                has_body,
                ..
            } => calls::object_given(
                e,
                between(words, 0, n),
                has_body,
                packet,
                headers,
                body,
                reply,
            ),
            Answer::Nonce(n) => calls::nonce_given(
                e,
                nonce_of(between(words, 0, n), self.nonces),
                b"",
                tables,
                packet,
                headers,
                body,
                reply,
            ),
            Answer::Password(password) => calls::password_given(
                e,
                password.is_some(),
                between(words, 0, password.unwrap_or(0)),
                packet,
                headers,
                body,
                reply,
            ),
            Answer::NoCredentials => calls::credentials_given(
                e, false, false, b"", b"", packet, headers, body, reply,
            ),
            Answer::Acknowledge => calls::abort_acknowledged(e, packet, headers, body, reply),
            Answer::Body { .. } if content.is_failing() => {
                calls::body_failed(e, packet, headers, body, reply)
            }
            Answer::Body { room } => {
                calls::body_given(e, content.front(words, room), packet, headers, body, reply)
            }
        }
    }
}

// Returns the sixteen bytes at the front of `bytes`. If there are fewer, the nonce is its own number, so that none comes twice.
fn nonce_of(bytes: &[u8], number: usize) -> Octets16 {
    if bytes.len() < 16 {
        return Octets16 {
            first: 0,
            second: number as u64,
        };
    }
    octets16_at(bytes, 0)
}

impl Pair {
    // Offers `n` bytes on the way up.
    pub(crate) fn hear(&mut self, n: usize) {
        let taken = self.host.hear(self.up.front(n));
        self.up.take(taken);
        self.host.keep_record();
    }

    // Sends a reply of `n` bytes down, and tells the engine that it was taken.
    pub(crate) fn reply(&mut self, n: usize) {
        self.down.push(between(&self.host.reply, 0, n));
        self.host.take_reply();
    }

    // Answers a request, and prints a line if the engine refuses the answer: the request then still waits.
    pub(crate) fn answer(&mut self, request: HostRequest) {
        let answer = self
            .host
            .answers
            .take_for(request, self.words.as_mut_slice());
        let took = self.host.give(answer, self.content, self.words.as_slice());
        self.host.engine = took.engine;
        if let Outcome::Refused(refusal) = took.outcome {
            self.print_number(b"host refused ", refusal_number(refusal));
        } else {
            self.host.outcome = took.outcome;
        }
        self.after_answer(answer);
    }

    // Keeps the object that an answer gives, or notes that body bytes or a nonce were given.
    fn after_answer(&mut self, answer: Answer) {
        match answer {
            Answer::Object { content, .. } => self.content = content,
            Answer::Body { room } => self.content.give(room),
            Answer::Nonce(_) => self.host.nonces = wrapping_add_usize(self.host.nonces, 1),
            _ => {}
        }
    }
}
