// The bytes on the way between the two ends, each way in a store of its own, and which end goes on next.
ghost use Rattle.std.specs.Prelude.{◌<◌};

use client_model::Outcome;
use lines::input::keep;
use lines::store::{between, place};
use lines::word::unhex;

// How long the store of each way is. No end puts a packet there if more than `ENOUGH` bytes wait, so that each packet finds room.
pub const WAY: usize = 196608;

const ENOUGH: usize = 65536;

// The bytes on a way: those from `from` up to `to` wait.
#[derive(Drop)]
pub struct Way {
    bytes: [u8; WAY],
    from: usize,
    to: usize,
}

// What may happen next while an operation is open.
#[derive(Clone, Copy)]
pub enum Move {
    // So many bytes on the way are offered to the client, or to the server.
    Down(usize),
    Up(usize),
    // The server sends the reply that waits, or its host answers.
    Serve,
    // The user does what the client waits for.
    Act,
}

// What each end waits for, and how many bytes are on each way.
#[derive(Clone, Copy)]
pub struct Ends {
    pub client: Option<Waits>,
    pub server: Option<Waits>,
    pub up: usize,
    pub down: usize,
}

// What an end waits for. An end that puts a packet on its way needs room there.
#[derive(Clone, Copy, PartialEq, Eq)]
pub enum Waits {
    Bytes,
    Packet,
    Answer,
}

// The random numbers by which a session is shuffled. Unless it is, bytes are passed on at once and whole.
#[derive(Clone, Copy)]
pub struct Shuffle {
    pub is_on: bool,
    pub random: usize,
}

impl Way {
    // Returns a way on which nothing waits.
    pub(crate) fn new() -> Way {
        Way {
            bytes: [0u8; WAY],
            from: 0,
            to: 0,
        }
    }

    // Nothing waits any more.
    pub(crate) fn clear(&mut self) {
        self.from = 0;
        self.to = 0;
    }

    // Returns how many bytes wait.
    pub(crate) fn len(&self) -> usize {
        self.to.saturating_sub(self.from)
    }

    // Returns the first `n` bytes that wait, or all of them if there are fewer.
    pub(crate) fn front(&self, n: usize) -> &[u8] {
        let to = self.from.saturating_add(n).min(self.to);
        between(&self.bytes, self.from, to)
    }

    // Takes the first `n` bytes that wait, or all of them if there are fewer.
    pub(crate) fn take(&mut self, n: usize) {
        self.from = self.from.saturating_add(n).min(self.to);
    }

    // Puts bytes behind those that wait, as far as there is room.
    pub(crate) fn push(&mut self, bytes: &[u8]) {
        let end = self.to.min(self.bytes.len());
        let from = self.from.min(end);
        let at = keep(&mut self.bytes, from, end);
        let n = place(&mut self.bytes, at, bytes);
        self.from = 0;
        self.to = at.saturating_add(n);
    }

    // The bytes that a word of a line stands for come in place of those that wait, if it stands for any. Tells whether it does.
    pub(crate) fn fill(&mut self, word: &[u8]) -> bool {
        let n = unhex(word, &mut self.bytes);
        if n == 0 {
            return false;
        }
        self.from = 0;
        self.to = n;
        true
    }
}

impl Waits {
    // Returns what the client waits for.
    pub(crate) fn of_client(outcome: Outcome) -> Option<Waits> {
        match outcome {
            Outcome::WantsBytes => Some(Waits::Bytes),
            Outcome::Send { .. } => Some(Waits::Packet),
            Outcome::Read { .. } | Outcome::Part { .. } => Some(Waits::Answer),
            _ => None,
        }
    }

    // Returns what the server waits for.
    pub(crate) fn of_server(outcome: server::Outcome) -> Option<Waits> {
        match outcome {
            server::Outcome::WantsBytes => Some(Waits::Bytes),
            server::Outcome::Reply { .. } => Some(Waits::Packet),
            server::Outcome::Request(_) => Some(Waits::Answer),
            _ => None,
        }
    }
}

// Whether an end acts, if `waiting` bytes are on the way that it puts packets on.
fn acts(waits: Option<Waits>, waiting: usize) -> bool {
    match waits {
        Some(Waits::Packet) => waiting <= ENOUGH,
        Some(Waits::Answer) => true,
        _ => false,
    }
}

impl Shuffle {
    // Draws the next random number.
    pub(crate) fn draw(&mut self) {
        self.random = (self.random % 2147483648 * 1103515245 + 12345) % 2147483648;
    }

    // Returns how many of `waiting` bytes are offered: all of them, or by the random number a few, some, or all.
    fn piece(self, waiting: usize) -> usize {
        if !self.is_on {
            return waiting;
        }
        match self.random / 16 % 3 {
            0 => waiting.min(1 + self.random / 64 % 7),
            1 => waiting.min(1 + self.random / 64 % 400),
            _ => waiting,
        }
    }

    // Returns where the search for a move begins: with the client's bytes, or anywhere if the session is shuffled.
    fn first(self) -> usize
        ensures { result < 4 }
    {
        if self.is_on {
            self.random / 65536 % 4
        } else {
            0
        }
    }

    // Returns what happens next: the first move, from the one where the search begins, that can be made.
    pub(crate) fn next_move(self, e: Ends) -> Option<Move> {
        let down = e.client == Some(Waits::Bytes) && 0 < e.down;
        let up = e.server == Some(Waits::Bytes) && 0 < e.up;
        let moves = [
            down.then_some(Move::Down(self.piece(e.down))),
            up.then_some(Move::Up(self.piece(e.up))),
            acts(e.server, e.down).then_some(Move::Serve),
            acts(e.client, e.up).then_some(Move::Act),
        ];
        for i in 0..4 {
            if let Some(it) = moves[(self.first() + i) % 4] {
                return Some(it);
            }
        }
        None
    }
}
