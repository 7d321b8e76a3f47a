// The peer's bytes on their way to the engine.
use lines::input::keep;
use lines::store::between;
use lines::word::unhex;

// How many bytes of the peer stand here at most.
pub const ROOM: usize = 131072;

// How far the peer's bytes were sent, read by its host, and taken by the engine.
#[derive(Clone, Copy)]
pub struct Stream {
    pub taken: usize,
    pub read: usize,
    pub sent: usize,
}

// The bytes that the peer has sent.
#[derive(Drop)]
pub struct Sent {
    bytes: [u8; ROOM],
    stream: Stream,
}

impl Sent {
    // Returns the bytes of a peer that has sent nothing.
    pub(crate) fn new() -> Sent {
        Sent {
            bytes: [0u8; ROOM],
            stream: Stream {
                taken: 0,
                read: 0,
                sent: 0,
            },
        }
    }

    // A session starts: the peer has sent nothing.
    pub(crate) fn clear(&mut self) {
        self.stream = Stream {
            taken: 0,
            read: 0,
            sent: 0,
        };
    }

    // Returns the bytes that the host offers to the engine.
    pub(crate) fn offered(&self) -> &[u8] {
        between(&self.bytes, self.stream.taken, self.stream.read)
    }

    // The peer sends the bytes that a word stands for, as far as there is room for them behind those that the engine has not taken.
    pub(crate) fn send(&mut self, word: &[u8]) {
        let end = self.stream.sent.min(self.bytes.len());
        let from = self.stream.taken.min(end);
        let waiting = keep(&mut self.bytes, from, end);
        let n = unhex(word, &mut self.bytes[waiting..]);
        self.stream = Stream {
            taken: 0,
            read: self.stream.read.saturating_sub(from),
            sent: waiting.saturating_add(n),
        };
    }

    // The host reads `n` bytes more, if so many were sent.
    pub(crate) fn read(&mut self, n: usize) {
        self.stream.read = self.stream.read.saturating_add(n).min(self.stream.sent);
    }

    // The engine takes `n` of the bytes that the host has read.
    pub(crate) fn take(&mut self, n: usize) {
        self.stream.taken = self.stream.taken.saturating_add(n).min(self.stream.read);
    }
}
