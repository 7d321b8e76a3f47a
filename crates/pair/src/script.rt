// Lines of a script: which command each of them is, and what it names.
ghost use Rattle.std.specs.Prelude.{◌+◌, ◌≤◌, length};

use check::same;
use client_model::Outcome;
use lines::store::between;
use lines::word::{byte_at, number, unhex, value, word_of};
use server::{Settings, default_settings};
use std::fmt;
use std::num::wrapping_add_usize;

// How long the word store is: headers, and behind them a body of 1 MiB and more.
pub const WORDS: usize = 1245184;

// How long the server's body store is, and so the largest Put limit.
pub const BODY: usize = 1048576;

// How long each other store is.
pub const STORE: usize = 65536;

#[derive(Clone, Copy)]
pub enum Command {
    Session,
    Client,
    Server,
    Host,
    Stores,
    Call(Call),
}

// A call on the client. The bytes that it hands over stand in the word store, or wait on the way down. The last six are calls that a line
// names at a wrong moment, but for the end of the stream between two operations.
#[derive(Clone, Copy)]
pub enum Call {
    Connect,
    Disconnect,
    Put { has_body: bool },
    Get,
    Sent,
    Body,
    Bytes(usize),
    Taken,
    Abort,
    Ended,
}

// The moments at which a user may abort: what the client waits for.
#[derive(Clone, Copy, PartialEq, Eq)]
pub enum Moment {
    Sent,
    Bytes,
    Body,
    Taken,
}

// When the user aborts: at the moment with the number `number`, counted from 0 in the operation, if there is one. `seen` is how many of them
// there were, `is_due` that the user aborts now.
#[derive(Clone, Copy)]
pub struct Abort {
    pub moment: Option<Moment>,
    pub number: usize,
    pub seen: usize,
    pub is_due: bool,
}

// The body bytes in the word store that are still to be given, from `from` up to `to`, by the user in a Put and by the host in a Get. `piece`
// is how many the user gives at a time, 0 for as many as are asked for. If `fails`, the host cannot read on behind them.
#[derive(Clone, Copy)]
pub struct Content {
    pub from: usize,
    pub to: usize,
    pub piece: usize,
    pub fails: bool,
}

// How many bytes two words of a line stand for.
#[derive(Clone, Copy)]
pub struct Sizes {
    pub headers: usize,
    pub body: usize,
}

// How much of each store is lent to the client.
#[derive(Clone, Copy)]
pub struct Lent {
    pub packet: usize,
    pub headers: usize,
    pub body: usize,
    pub request: usize,
}

// ---- commands

impl Command {
    // Returns the command that a line's first word names. A line that has none is passed over.
    pub(crate) fn parse(word: &[u8]) -> Option<Command> {
        match word {
            b"session" => Some(Command::Session),
            b"client" => Some(Command::Client),
            b"server" => Some(Command::Server),
            b"host" => Some(Command::Host),
            b"stores" => Some(Command::Stores),
            _ => Call::parse(word).map(Command::Call),
        }
    }
}

impl Call {
    fn parse(word: &[u8]) -> Option<Call> {
        match word {
            b"connect" => Some(Call::Connect),
            b"disconnect" => Some(Call::Disconnect),
            b"put" => Some(Call::Put { has_body: true }),
            b"get" => Some(Call::Get),
            b"sent" => Some(Call::Sent),
            b"body" => Some(Call::Body),
            b"bytes" => Some(Call::Bytes(0)),
            b"taken" => Some(Call::Taken),
            b"abort" => Some(Call::Abort),
            b"end" => Some(Call::Ended),
            _ => None,
        }
    }

    // Returns the call, once it is known whether a Put has a body.
    pub(crate) fn with_body(self, has_body: bool) -> Call {
        match self {
            Call::Put { .. } => Call::Put { has_body },
            _ => self,
        }
    }

    // Returns which word of a call's line is the body.
    pub(crate) fn body_word(self) -> usize {
        match self {
            Call::Put { has_body: true } => 2,
            _ => OTHER_WORD,
        }
    }

    // Returns which word of a call's line may say when the user aborts.
    pub(crate) fn abort_word(self) -> usize {
        match self {
            Call::Put { .. } => 4,
            Call::Get => 2,
            _ => OTHER_WORD,
        }
    }
}

// The line of a call that a line of the script names.
impl fmt::Display for Call {
    fn fmt<W: fmt::Write>(&self, f: &mut fmt::Formatter<W>) -> fmt::Result {
        f.write_str(match self {
            Call::Connect => "call connect",
            Call::Disconnect => "call disconnect",
            Call::Put { .. } => "call put",
            Call::Get => "call get",
            Call::Sent => "call sent",
            Call::Body => "call body",
            Call::Bytes(_) => "call bytes",
            Call::Taken => "call taken",
            Call::Abort => "call abort",
            Call::Ended => "end of stream",
        })
    }
}

// ---- words

// The word of a line that stands for body bytes, or says when the user aborts, where none of the words before does.
pub const OTHER_WORD: usize = 9;

// Puts the bytes that two words of a line stand for into `words`, the second behind the first, and returns how many bytes each has.
pub(crate) fn unhex_both(line: &[u8], headers: usize, body: usize, words: &mut [u8]) -> Sizes
    ensures { result.headers + result.body ≤ length words.new }
{
    let n = unhex(word_of(line, headers), words);
    let m = unhex(word_of(line, body), &mut words[n..]);
    Sizes {
        headers: n,
        body: m,
    }
}

// Returns the byte that two hexadecimal digits stand for.
pub(crate) fn byte_of(word: &[u8]) -> u8 {
    value(byte_at(word, 0)) * 16 + value(byte_at(word, 1))
}

fn is_on(word: &[u8]) -> bool {
    same(word, b"on")
}

// Returns the limit of packets that a word names. One of over 65,535 is cut down to that.
fn limit_of(word: &[u8]) -> u16 {
    number(word).min(65535) as u16
}

// ---- settings

// Returns the settings of `client LIMIT on|off`.
pub(crate) fn client_of(line: &[u8]) -> client_model::Settings {
    client_model::Settings {
        max_packet_length: limit_of(word_of(line, 1)),
        srm_wanted: is_on(word_of(line, 2)),
    }
}

// Whether one of the words of a `server` line behind its limits is `word`.
fn has_word(line: &[u8], word: &[u8]) -> bool {
    same(word_of(line, 4), word) || same(word_of(line, 5), word)
}

// Returns the settings of `server LIMIT on|off PUTLIMIT`, behind which `password` and `trailing` may stand, or none if the line says that the
// session has no server. A Put limit above the body store is cut down to that.
pub(crate) fn server_of(line: &[u8]) -> Option<Settings> {
    if same(word_of(line, 1), b"none") {
        return None;
    }
    let mut s = default_settings(number(word_of(line, 3)).min(BODY) as u32);
    s.max_packet_length = limit_of(word_of(line, 1));
    s.srm_supported = is_on(word_of(line, 2));
    s.authentication = has_word(line, b"password");
    s.refuse_trailing = has_word(line, b"trailing");
    Some(s)
}

// The settings of a client that a session begins with.
pub(crate) const CLIENT: client_model::Settings = client_model::Settings {
    max_packet_length: 65535,
    srm_wanted: false,
};

// Returns the settings of a server that a session begins with. The body store is the Put limit.
pub(crate) fn server_settings() -> Settings {
    default_settings(BODY as u32)
}

impl Lent {
    pub(crate) const WHOLE: Lent = Lent {
        packet: STORE,
        headers: STORE,
        body: STORE,
        request: STORE,
    };

    // Returns how much of each store is lent, by the four numbers of a line.
    pub(crate) fn parse(line: &[u8]) -> Lent {
        Lent {
            packet: number(word_of(line, 1)),
            headers: number(word_of(line, 2)),
            body: number(word_of(line, 3)),
            request: number(word_of(line, 4)),
        }
    }
}

// ---- aborts

impl Moment {
    fn parse(word: &[u8]) -> Option<Moment> {
        match word {
            b"sent" => Some(Moment::Sent),
            b"bytes" => Some(Moment::Bytes),
            b"body" => Some(Moment::Body),
            b"taken" => Some(Moment::Taken),
            _ => None,
        }
    }

    // Returns the moment at which the client stands in an operation.
    pub(crate) fn of(outcome: Outcome) -> Option<Moment> {
        match outcome {
            Outcome::Send { .. } => Some(Moment::Sent),
            Outcome::WantsBytes => Some(Moment::Bytes),
            Outcome::Read { .. } => Some(Moment::Body),
            Outcome::Part { .. } => Some(Moment::Taken),
            _ => None,
        }
    }
}

// The line of an Abort at a moment.
impl fmt::Display for Moment {
    fn fmt<W: fmt::Write>(&self, f: &mut fmt::Formatter<W>) -> fmt::Result {
        f.write_str(match self {
            Moment::Sent => "abort at sent",
            Moment::Bytes => "abort at bytes",
            Moment::Body => "abort at body",
            Moment::Taken => "abort at taken",
        })
    }
}

impl Abort {
    pub(crate) const NEVER: Abort = Abort {
        moment: None,
        number: 0,
        seen: 0,
        is_due: false,
    };

    // Returns when the user aborts, by the words `abort MOMENT K` from the word with the number `at` on.
    pub(crate) fn parse(line: &[u8], at: usize) -> Abort {
        if !same(word_of(line, at), b"abort") {
            return Abort::NEVER;
        }
        Abort {
            moment: Moment::parse(word_of(line, at.saturating_add(1))),
            number: number(word_of(line, at.saturating_add(2))),
            ..Abort::NEVER
        }
    }

    // The user looks at the client's outcome: if it is the moment to abort, the Abort is due.
    pub(crate) fn look(&mut self, outcome: Outcome) {
        if self.moment == Moment::of(outcome) {
            self.is_due = self.seen == self.number;
            self.seen = wrapping_add_usize(self.seen, 1);
        }
    }
}

// ---- content

impl Content {
    // What is to be given before the first call.
    pub(crate) const NOTHING: Content = Content {
        from: 0,
        to: 0,
        piece: 0,
        fails: false,
    };

    // Returns how many bytes are left.
    fn len(self) -> usize {
        self.to.saturating_sub(self.from)
    }

    // Returns the bytes of `words` that are given if `room` are asked for.
    pub(crate) fn front(self, words: &[u8], room: usize) -> &[u8] {
        between(words, self.from, self.from.saturating_add(self.size(room)))
    }

    // The bytes that are given if `room` are asked for are given.
    pub(crate) fn give(&mut self, room: usize) {
        self.from = self.from.saturating_add(self.size(room));
    }

    // Returns how many bytes are given if `room` are asked for.
    pub(crate) fn size(self, room: usize) -> usize {
        let n = room.min(self.len());
        if self.piece == 0 {
            n
        } else {
            n.min(self.piece)
        }
    }

    // Whether no more can be read.
    pub(crate) fn is_failing(self) -> bool {
        self.fails && self.len() == 0
    }
}
