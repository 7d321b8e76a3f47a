// What a program prints: collected, so that a word costs no call of the system, and with byte strings in hexadecimal.
ghost use Rattle.std.specs.Prelude.{◌≡◌, ◌≤◌, ◌-◌, ◌/◌, ◌++◌, [], take, vec_len, nat_le, if◌then◌else◌, OnOk, OnErr, Some};
ghost use Rattle.lines.specs.Output.{hex_of};
ghost use Rattle.lines.specs.Printed.{sum_text, shown_text};

use crate::output::{digits, print};
use digest::md5;
use std::alloc::{AllocError, Global};
use std::{fmt, io, str};

// What was printed and is not yet written out. There is room for `room` bytes, and what passes that is left out.
#[derive(Drop)]
pub struct Output {
    pub text: Vec<u8>,
    pub room: usize,
    ghost fits: { vec_len text ≤ room },
}

impl Output {
    // Returns an output with nothing in it.
    pub fn new(alloc: Global, room: usize) -> Output
        ensures text { result.text.items ≡ [] }
        ensures room { result.room ≡ room }
    {
        Output {
            text: Vec::new(alloc),
            room,
        }
    }

    // Puts bytes behind what was printed before, as many as there is room for.
    pub fn put(&mut self, bytes: &[u8]) -> Result<(), AllocError>
        ensures text { OnOk result (self.new.text.items
            ≡ self.old.text.items ++ take (self.old.room - vec_len self.old.text) bytes.now) }
        ensures err { OnErr result (self.new.text.items ≡ self.old.text.items) }
        ensures room { self.new.room ≡ self.old.room }
    {
        let n = bytes.len().min(self.room - self.text.len());
        self.text.extend_from_slice(&bytes[..n])
    }

    // Writes out what is there to the standard output `to`.
    pub fn write_out(&mut self, to: &impl Print)
        ensures text { self.new.text.items ≡ [] }
        ensures room { self.new.room ≡ self.old.room }
    {
        print(to, self.text.as_slice());
        self.text.clear();
    }

    // Writes out what is there if it takes up half of the room.
    pub fn flush(&mut self, to: &impl Print)
        ensures text { self.new.text.items
            ≡ (if nat_le (self.old.room / 2) (vec_len self.old.text) then [] else self.old.text.items) }
        ensures room { self.new.room ≡ self.old.room }
    {
        if self.room / 2 <= self.text.len() {
            self.write_out(to);
        }
    }
}

impl io::Write for Output {
    fn write(&mut self, bytes: &[u8]) -> io::Result<usize> {
        self.put(bytes)?;
        Ok(bytes.len())
    }

    fn flush(&mut self) -> io::Result<()> {
        Ok(())
    }
}

// Bytes in hexadecimal.
#[derive(Clone, Copy)]
pub struct Hex<'a>(pub &'a [u8]);

impl fmt::Display for Hex<'_> {
    ghost output = { λ h. Some (hex_of h.0.now) };

    fn fmt<W: fmt::Write>(&self, f: &mut fmt::Formatter<W>) -> fmt::Result {
        let mut store = [0u8; 1024];
        for part in self.0.chunks(512) {
            let n = digits(part, &mut store);
            let Ok(text) = str::from_utf8(&store[..n]) else {
                unreachable!();
            };
            f.write_str(text)?;
        }
        Ok(())
    }
}

// How many bytes there are, and their MD5.
#[derive(Clone, Copy)]
pub struct Sum<'a>(pub &'a [u8]);

impl fmt::Display for Sum<'_> {
    ghost output = { λ s. Some (sum_text s.0.now) };

    fn fmt<W: fmt::Write>(&self, f: &mut fmt::Formatter<W>) -> fmt::Result {
        let sum = md5::digest(self.0);
        write!(f, "#{}:{}", self.0.len(), Hex(&sum))
    }
}

// Bytes in hexadecimal, a dash if there are none, and how many there are with their MD5 if there are more than `longest`.
#[derive(Clone, Copy)]
pub struct Shown<'a> {
    pub bytes: &'a [u8],
    pub longest: usize,
}

impl fmt::Display for Shown<'_> {
    ghost output = { λ s. Some (shown_text s.bytes.now s.longest) };

    #[tactic(auto, unfolding(crate::specs::Printed::shown_text))]
    fn fmt<W: fmt::Write>(&self, f: &mut fmt::Formatter<W>) -> fmt::Result {
        if self.bytes.is_empty() {
            f.write_str("-")
        } else if self.longest < self.bytes.len() {
            write!(f, "{}", Sum(self.bytes))
        } else {
            write!(f, "{}", Hex(self.bytes))
        }
    }
}
