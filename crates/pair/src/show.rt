// The lines that the program prints of what the client and the host do.
use crate::Pair;
use client_model::{Outcome, end_number, refusal_number};
use lines::output::pair;
use lines::store::between;
use std::fmt;
use std::fmt::Write;

// Longer byte strings are printed by length and MD5.
pub const LONGEST: usize = 512;

impl Pair {
    // Prints a line of words alone. That some of it may have no room is no error of the text.
    pub(crate) fn print_words(&mut self, words: impl fmt::Display + Drop) {
        let _ = writeln!(self.out, "{words}");
    }

    // Prints a line of a word and a number.
    pub(crate) fn print_number(&mut self, word: &[u8], number: u8) {
        self.out.put(word);
        self.out.put_number(number as usize);
        self.out.put(b"\n");
    }

    // Prints a line of a word and a code.
    fn print_code(&mut self, word: &[u8], code: u8) {
        self.out.put(word);
        self.out.put(&pair(code));
        self.out.put(b"\n");
    }

    // Prints the line of what a call on the client returned. A packet that waits and body bytes that are wanted are told of later, once the
    // user acts.
    pub(crate) fn print_outcome(&mut self, outcome: Outcome) {
        match outcome {
            Outcome::Part { kept, body } => {
                self.out.put(b"part headers ");
                self.out
                    .put_hex(between(&self.user.headers, 0, kept), LONGEST);
                self.out.put(b" body ");
                match body {
                    Some(n) => self.out.put_hex(between(&self.user.body, 0, n), LONGEST),
                    None => self.out.put(b"none"),
                }
                self.out.put(b"\n");
            }
            Outcome::Done { code, .. } => self.print_code(b"done ", code),
            Outcome::Stopped { code, .. } => self.print_code(b"stopped 25 ", code),
            Outcome::Aborted { code, .. } => self.print_code(b"aborted ", code),
            Outcome::End(end) => self.print_number(b"end ", end_number(end)),
            Outcome::Refused(refusal) => self.print_number(b"refused ", refusal_number(refusal)),
            Outcome::Ready | Outcome::Send { .. } | Outcome::WantsBytes | Outcome::Read { .. } => {}
        }
    }
}
