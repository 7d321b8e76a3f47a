// Plays a client and the engine in one process by a script on standard input, and prints what the client's user sees: packets, parts, codes
// and numbers, and at the end of each session the records that the engine's host got (docs/PROTOCOL.md#link). `pair shuffle SEED` cuts the
// streams anywhere and lets the ends go on in any order, by random numbers from SEED; it prints the same.
#![tactic(auto)]

mod answers;
mod host;
mod script;
mod show;
mod stream;
mod user;

use answers::Answers;
use check::same;
use host::Host;
use lines::arguments::{has_argument, is_argument, number_argument};
use lines::input::{before_first, bytes_of, next_line};
use lines::output::print;
use lines::text::Text;
use lines::word::{number, word_of};
use script::{
    Abort, CLIENT, Call, Command, Content, Lent, WORDS, client_of, server_of, server_settings,
    unhex_both,
};
use server::{Outcome, end_number};
use std::env::Env;
use std::io;
use std::io::Read;
use stream::{Ends, Move, Shuffle, WAY, Waits, Way};
use user::User;

// How long the input store is: a line whose bytes are 1 MiB in hexadecimal fits.
const INPUT: usize = 2359296;

// How much output is collected. What passes that is left out.
const OUTPUT: usize = 262144;

// What the next turn does.
#[derive(Clone, Copy)]
enum Due {
    // Nothing: the next line is due.
    Line,
    // Lets one of the two ends go on, since an operation is open.
    Link,
    // Tells the client that nothing more comes.
    Close,
}

// What a turn does while an operation is open.
#[derive(Clone, Copy)]
enum Step {
    // Nothing, since the user has not looked at the client's outcome yet.
    Wait,
    Call(Call),
    // The host's next bytes come to a client without a server.
    Feed,
    Hear(usize),
    Reply(usize),
    Answer(server::HostRequest),
}

// What the program keeps from turn to turn.
#[derive(Drop)]
struct Pair {
    user: User,
    host: Host,
    // The bytes on the way to the server, and those on the way to the client.
    up: Way,
    down: Way,
    // The bytes that a line's call hands over, headers and behind them a body, and those of the host's answers: one store for all, so an answer
    // with bytes takes the place of what the user has still to give.
    words: Vec<u8>,
    // How many bytes at the front of the word store are the headers that a line's call hands over.
    headers: usize,
    content: Content,
    due: Due,
    abort: Abort,
    shuffle: Shuffle,
    // Whether the session has no server: the host's lines then hold the bytes that come to the client.
    is_alone: bool,
    // Whether a session is open, so that its end is to be printed.
    is_open: bool,
    // Whether the client's last outcome was not looked at yet.
    is_fresh: bool,
    out: Text<OUTPUT>,
}

impl Pair {
    // Plays the sessions of the input. A line that is longer than the store is passed over.
    fn play(&mut self, rt: &impl Print, from: &mut impl Read, store: &mut [u8]) {
        self.user.start(CLIENT);
        self.host.start(server_settings());
        let mut at = before_first();
        for _ in 0..u64::MAX {
            at = next_line(from, store, at);
            if at.is_over {
                break;
            }
            // Behind a line without an end of its own nothing more is read.
            let is_last = at.is_there && at.end == at.next;
            if at.is_there && !at.is_cut {
                let line = bytes_of(store, at);
                self.follow(rt, line);
                // A session that begins with the input's last bytes has no end.
                if is_last && matches!(Command::parse(word_of(line, 0)), Some(Command::Session)) {
                    self.out.print(rt);
                    return;
                }
            }
            if is_last {
                break;
            }
        }
        self.end_session();
        self.out.print(rt);
    }

    // ---- lines

    // Carries out a line.
    fn follow(&mut self, rt: &impl Print, line: &[u8]) {
        match Command::parse(word_of(line, 0)) {
            Some(Command::Session) => self.begin_session(),
            Some(Command::Client) => self.start_client(client_of(line)),
            Some(Command::Server) => self.start_server(line),
            Some(Command::Host) => {
                self.host.answers.keep(line);
                self.is_open = true;
            }
            Some(Command::Stores) => self.user.lent = Lent::parse(line),
            Some(Command::Call(name)) => {
                let call = self.call_of(name, line);
                self.call(call, true);
                self.go_on(rt);
                return;
            }
            None => {}
        }
        self.out.flush(rt);
    }

    // Begins a session: the host has no answers, and nothing is on the way.
    fn begin_session(&mut self) {
        self.end_session();
        self.user.lent = Lent::WHOLE;
        self.host.answers.clear();
        self.host.nonces = 1;
        self.is_alone = false;
        self.start_client(CLIENT);
        self.host.start(server_settings());
    }

    // Prints the end of a session, if one is open: its records, the server's end if it has ended, and an empty line.
    fn end_session(&mut self) {
        if self.is_open {
            self.out.put(self.host.records.as_slice());
            if let Outcome::End(end) = self.host.outcome {
                self.print_number(b"server end ", end_number(end));
            }
            self.out.put(b"\n");
        }
        self.host.records.length = 0;
        self.is_open = false;
    }

    // Starts a client: nothing is on the way.
    fn start_client(&mut self, settings: client_model::Settings) {
        self.user.start(settings);
        self.clear_ways();
    }

    // Starts the server of a line, if it names one.
    fn start_server(&mut self, line: &[u8]) {
        let settings = server_of(line);
        self.is_alone = settings.is_none();
        self.is_open = true;
        if let Some(settings) = settings {
            self.host.start(settings);
            self.clear_ways();
        }
    }

    fn clear_ways(&mut self) {
        self.up.clear();
        self.down.clear();
        self.is_open = true;
    }

    // Returns the call of a line, and keeps what it hands over.
    fn call_of(&mut self, name: Call, line: &[u8]) -> Call {
        let call = name.with_body(!same(word_of(line, 2), b"none"));
        let sizes = unhex_both(line, 1, call.body_word(), self.words.as_mut_slice());
        self.headers = sizes.headers;
        self.content = Content {
            from: sizes.headers,
            to: sizes.headers.saturating_add(sizes.body),
            piece: number(word_of(line, 3)),
            fails: false,
        };
        self.abort = Abort::parse(line, call.abort_word());
        self.is_open = true;
        call
    }

    // ---- turns

    // Lets the two ends go on until the operation is over.
    fn go_on(&mut self, rt: &impl Print) {
        for _ in 0..u64::MAX {
            self.server_turn();
            self.out.flush(rt);
            match self.due {
                Due::Line => break,
                Due::Link => self.look(),
                Due::Close => {}
            }
            self.client_turn();
        }
    }

    // The user looks at the client's outcome, and a random number is drawn.
    fn look(&mut self) {
        if self.is_fresh {
            self.is_fresh = false;
            self.abort.look(self.user.outcome);
        }
        self.shuffle.draw();
    }

    // Does what is due at the client's end.
    fn client_turn(&mut self) {
        match self.due {
            Due::Line => {}
            Due::Link => {
                if let Step::Call(call) = self.step() {
                    self.call(call, false);
                }
            }
            Due::Close => self.call(Call::Ended, true),
        }
    }

    // Does what is due at the server's end.
    fn server_turn(&mut self) {
        let Due::Link = self.due else {
            return;
        };
        match self.step() {
            Step::Hear(n) => self.hear(n),
            Step::Reply(n) => self.reply(n),
            Step::Answer(request) => self.answer(request),
            Step::Feed => self.feed(),
            Step::Wait | Step::Call(_) => {}
        }
    }

    // Returns what a turn does while an operation is open.
    fn step(&self) -> Step {
        if self.is_fresh {
            return Step::Wait;
        }
        if self.abort.is_due {
            return Step::Call(Call::Abort);
        }
        let next = self.shuffle.next_move(Ends {
            client: Waits::of_client(self.user.outcome),
            server: Waits::of_server(self.host.outcome),
            up: self.up.len(),
            down: self.down.len(),
        });
        match next {
            Some(Move::Down(n)) => Step::Call(Call::Bytes(n)),
            Some(Move::Up(n)) => Step::Hear(n),
            Some(Move::Serve) => match self.host.outcome {
                Outcome::Reply { length } => Step::Reply(length),
                Outcome::Request(request) => Step::Answer(request),
                _ => Step::Feed,
            },
            Some(Move::Act) => Step::Call(match self.user.outcome {
                client_model::Outcome::Send { .. } => Call::Sent,
                client_model::Outcome::Read { .. } => Call::Body,
                _ => Call::Taken,
            }),
            // Nothing more comes to the client; without a server, the host's next bytes may.
            None if self.is_alone => Step::Feed,
            None => Step::Call(Call::Ended),
        }
    }

    // Lets the host's next line of bytes come to a client without a server, or tells the client that nothing more comes.
    fn feed(&mut self) {
        if !self.host.answers.take_bytes(&mut self.down) {
            self.due = Due::Close;
        }
    }
}

// ---- the program

// Returns the shuffle that the arguments name, which are `shuffle SEED` or none, or no shuffle if they are others.
fn shuffle_of(rt: &impl Env) -> Option<Shuffle> {
    if !has_argument(rt, 1) {
        return Some(Shuffle {
            is_on: false,
            random: 0,
        });
    }
    if !has_argument(rt, 2) || has_argument(rt, 3) || !is_argument(rt, 1, b"shuffle") {
        return None;
    }
    Some(Shuffle {
        is_on: true,
        random: number_argument(rt, 2),
    })
}

fn main(rt: HostRuntime) -> io::Result<()> {
    let Some(shuffle) = shuffle_of(&rt) else {
        print(&rt.stderr(), b"usage: pair [shuffle SEED]\n");
        return Ok(());
    };
    let alloc = rt.alloc();
    let mut input = vec![in alloc; 0u8; INPUT]?;
    let words = vec![in alloc; 0u8; WORDS]?;
    let answers = Answers::new(alloc)?;
    let mut pair = Pair {
        user: User::new(),
        host: Host::new(answers),
        up: Way::new(),
        down: Way::new(),
        words,
        headers: 0,
        content: Content::NOTHING,
        due: Due::Line,
        abort: Abort::NEVER,
        shuffle,
        is_alone: false,
        is_open: false,
        is_fresh: false,
        out: Text::new(),
    };
    pair.play(&rt, &mut rt.stdin(), input.as_mut_slice());
    Ok(())
}
