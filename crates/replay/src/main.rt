// Reads a transcript of sessions, drives the engine with the calls in it, and prints what the engine does, in the words of the
// original's `oracle engine`.
#![tactic(auto)]

mod command;
mod show;
mod stores;
mod stream;

use command::{Call, Command, Lent, Options, REALM, WORDS};
use lines::input::{Line, before_first, bytes_of, next_line};
use lines::store::between;
use lines::text::Text;
use lines::word::find;
use server::{CallResult, Engine, HostRequest, Operation, Outcome, end_number, refusal_number};
use show::{OwnLine, RequestLine, StateLine, StoresLine, TargetLine};
use std::io::Read;
use stores::{Stores, before_start};
use stream::Sent;

// How long a line may be, with its end. A longer one ends the program.
const INPUT: usize = 1048576;

// How much output is collected. What passes that is left out.
pub const OUTPUT: usize = 1048576;

// Byte strings of more than so many bytes are printed by length and MD5, whatever a transcript says: the digits of the others, two for each
// byte, have to fit beside a line's other words into half of the output.
const LONGEST: usize = 100000;

// What the program keeps from line to line.
#[derive(Drop)]
struct Replay {
    engine: Engine,
    stores: Stores,
    // How much of the stores is lent to the engine.
    lent: Lent,
    stream: Sent,
    // The realm of the last start.
    realm: Text<REALM>,
    // Whether the Target of each request is printed, by the last start.
    targets: bool,
    // Longer byte strings are printed by length and MD5.
    longest: usize,
    // Whether replies wait for `taken` and Aborts for `acknowledge`.
    hold: bool,
    out: Text<OUTPUT>,
}

impl Replay {
    // Plays the sessions of the input. A line that has no end of its own is not played, nor is one that fills `store`, behind which nothing is
    // read. `words` is for the bytes that an answer hands over.
    fn play(
        &mut self,
        rt: &impl Print,
        input: &mut impl Read,
        store: &mut [u8; INPUT],
        words: &mut [u8; WORDS],
    ) {
        // An engine as the original starts it, for a transcript that begins with no start.
        self.engine = self.stores.first_start();
        let mut at = before_first();
        for _ in 0..u64::MAX {
            if is_full(store, at) {
                break;
            }
            at = next_line(input, store, at);
            if at.is_over || at.is_there && at.next == at.end {
                break;
            }
            if at.is_there {
                self.follow(rt, bytes_of(store, at), words);
            }
        }
        self.out.print(rt);
    }

    // Carries out a line.
    fn follow(&mut self, rt: &impl Print, line: &[u8], store: &mut [u8]) {
        match Command::parse(line) {
            Some(Command::Start(words)) => {
                self.print_command(line);
                let options = Options::parse(words, &mut self.realm);
                self.start(rt, options);
            }
            Some(Command::Read(n)) => {
                self.print_command(line);
                self.stream.read(n);
                self.call(rt, Call::read(n));
            }
            Some(Command::Answer(words)) => {
                if let Some(call) = Call::answer(words, store) {
                    self.call(rt, call);
                }
            }
            Some(Command::Nonce(word)) => {
                if let Some(call) = Call::nonce(word, store) {
                    self.call(rt, call);
                }
            }
            Some(Command::Close(word)) => self.call(rt, Call::close(word, store)),
            Some(Command::Taken) => self.call(rt, Call::Taken),
            Some(Command::Acknowledge) => self.call(rt, Call::Acknowledge),
            Some(command) => self.settle(command),
            None => {}
        }
    }

    // Carries out a line that makes no call.
    fn settle(&mut self, command: Command<'_>) {
        match command {
            Command::Sent(word) => self.stream.send(word),
            Command::Longest(n) => self.longest = n.min(LONGEST),
            Command::Stores(Some(lent)) => self.lent = lent,
            Command::Hold => self.hold = true,
            Command::Show => StoresLine {
                stores: &self.stores,
                lent: self.lent,
            }
            .put(&mut self.out),
            Command::Inspect => OwnLine(self.engine.peer).put(&mut self.out),
            _ => {}
        }
    }

    // Prints the line itself, which starts a session or reads.
    fn print_command(&mut self, line: &[u8]) {
        self.out.put(line);
        self.out.put(b"\n");
    }

    // Starts a session: the peer has sent nothing yet, and every store is lent whole.
    fn start(&mut self, rt: &impl Print, options: Options) {
        self.stream.clear();
        self.lent = Lent::WHOLE;
        self.hold = false;
        self.targets = options.targets;
        if options.clear {
            self.stores.clear();
        }
        self.call(rt, Call::Start(options));
    }

    // Makes a call, and those that follow it by themselves.
    fn call(&mut self, rt: &impl Print, first: Call<'_>) {
        let mut due = Some(first);
        for _ in 0..u64::MAX {
            let Some(call) = due else {
                break;
            };
            due = self.make(rt, call);
        }
    }

    // Makes a call, prints what it led to, and returns the call that follows by itself.
    fn make(&mut self, rt: &impl Print, call: Call<'_>) -> Option<Call<'static>> {
        let took = self.stores.call(
            self.engine,
            call,
            self.stream.offered(),
            self.realm.as_slice(),
            self.lent,
        );
        self.engine = took.engine;
        self.stream.take(took.taken);
        self.print_outcome(took.outcome);
        if shows_state(call, took) {
            self.print_state();
        }
        self.out.flush(rt);
        self.next_call(took.outcome)
    }

    // Returns the call that follows: the host takes a reply, acknowledges an Abort, and offers the bytes again that are left.
    fn next_call(&self, outcome: Outcome) -> Option<Call<'static>> {
        match outcome {
            Outcome::Reply { .. } if !self.hold => Some(Call::Taken),
            Outcome::Request(HostRequest::Abort { .. }) if !self.hold => Some(Call::Acknowledge),
            Outcome::WantsBytes if !self.stream.offered().is_empty() => Some(Call::Bytes),
            _ => None,
        }
    }

    // Prints what a call returned, and the Target that a request names.
    fn print_outcome(&mut self, outcome: Outcome) {
        match outcome {
            Outcome::WantsBytes => {}
            Outcome::Reply { length } => {
                self.out.put(b"out ");
                self.out
                    .put_hex(between(&self.stores.reply, 0, length), self.longest);
                self.out.put(b"\n");
            }
            Outcome::Request(request) => {
                RequestLine {
                    request,
                    stores: &self.stores,
                    longest: self.longest,
                }
                .put(&mut self.out);
                if self.targets {
                    TargetLine(self.engine.target).put(&mut self.out);
                }
            }
            Outcome::End(end) => self.print_number(b"end ", end_number(end)),
            Outcome::Refused(refusal) => self.print_number(b"refused ", refusal_number(refusal)),
        }
    }

    // Prints a line of a word and a number.
    fn print_number(&mut self, word: &[u8], number: u8) {
        self.out.put(word);
        self.out.put_number(number as usize);
        self.out.put(b"\n");
    }

    fn print_state(&mut self) {
        StateLine {
            peer: self.engine.peer,
            tables: &self.stores.tables,
        }
        .put(&mut self.out);
    }
}

// Tells whether what was read of the line behind `at` fills the store.
fn is_full(store: &[u8], at: Line) -> bool {
    at.next == 0 && store.len() <= at.have && find(store, 0, b'\n') == store.len()
}

// Returns whether the state is printed: it is after an operation, which ends when its last reply is taken, after connections were closed
// together, and after the end. No operation is open also while what trails a Put that was too long is refused.
fn shows_state(call: Call<'_>, took: CallResult) -> bool {
    match (took.outcome, call) {
        (Outcome::End(_), _) => true,
        (Outcome::WantsBytes, Call::Taken) => {
            matches!(
                took.engine.operation,
                Operation::Nothing | Operation::Trailing
            )
        }
        (Outcome::WantsBytes, Call::Close(_)) => true,
        _ => false,
    }
}

fn main(rt: HostRuntime) {
    let mut input = [0u8; INPUT];
    let mut words = [0u8; WORDS];
    let mut replay = Replay {
        engine: before_start(),
        stores: Stores::new(),
        lent: Lent::WHOLE,
        stream: Sent::new(),
        realm: Text::new(),
        targets: false,
        longest: 512,
        hold: false,
        out: Text::new(),
    };
    replay.play(&rt, &mut rt.stdin(), &mut input, &mut words);
}
