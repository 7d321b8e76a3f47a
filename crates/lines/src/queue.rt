// Bytes that wait, of which the first are taken.
ghost use Rattle.std.specs.Prelude.{◌≡◌, ◌-◌, ◌+◌, ◌≤◌, ◌++◌, [], take, drop, vec_len, min, OnOk, OnErr, ◌==◌};

use std::alloc::{AllocError, Global};

// The bytes behind the first `taken` ones wait.
#[derive(Drop)]
pub struct Queue {
    pub bytes: Vec<u8>,
    pub taken: usize,
    ghost within: { taken ≤ vec_len bytes },
}

impl Queue {
    // Returns a queue in which nothing waits.
    pub fn new(alloc: Global) -> Queue
        ensures { result.bytes.items ≡ [] }
    {
        Queue {
            bytes: Vec::new(alloc),
            taken: 0,
        }
    }

    // Returns a queue in which `bytes` wait.
    pub fn of(bytes: Vec<u8>) -> Queue
        ensures bytes { result.bytes ≡ bytes }
        ensures taken { result.taken ≡ 0 }
    {
        Queue { bytes, taken: 0 }
    }

    // Returns how many bytes wait.
    pub fn len(&self) -> usize
        ensures { result ≡ vec_len self.now.bytes - self.now.taken }
    {
        self.bytes.len() - self.taken
    }

    // Tells whether nothing waits.
    pub fn is_empty(&self) -> bool
        ensures { result ≡ (vec_len self.now.bytes - self.now.taken == 0) }
    {
        self.len() == 0
    }

    // Returns the first `n` bytes that wait, or all of them if there are fewer.
    pub fn front(&self, n: usize) -> &[u8]
        ensures { result.now ≡ take (min n (vec_len self.now.bytes - self.now.taken)) (drop self.now.taken self.now.bytes.items) }
    {
        let n = n.min(self.len());
        &self.bytes[self.taken..self.taken + n]
    }

    // Takes the first `n` bytes that wait, or all of them if there are fewer.
    pub fn take(&mut self, n: usize)
        ensures bytes { self.new.bytes ≡ self.old.bytes }
        ensures taken { self.new.taken ≡ self.old.taken + min n (vec_len self.old.bytes - self.old.taken) }
    {
        self.taken += n.min(self.len());
    }

    // Puts bytes behind those that wait, as far as no more than `room` wait then.
    pub fn push(&mut self, bytes: &[u8], room: usize) -> Result<(), AllocError>
        ensures ok { OnOk result (self.new.bytes.items ≡ drop self.old.taken self.old.bytes.items
            ++ take (room - (vec_len self.old.bytes - self.old.taken)) bytes.now) }
        ensures err { OnErr result (self.new.bytes.items ≡ drop self.old.taken self.old.bytes.items) }
        ensures taken { self.new.taken ≡ 0 }
    {
        self.bytes.drain(..self.taken);
        self.taken = 0;
        let n = bytes.len().min(room.saturating_sub(self.bytes.len()));
        self.bytes.extend_from_slice(&bytes[..n])
    }
}
