// The words that a program is started with. They are numbered from 0, and number 0 is the program's name.
ghost use Rattle.std.specs.Prelude.{◌<◌, ◌≤◌, ◌≡◌, false, length};

use crate::word::number;
use check::same;
use std::env::{Env, FillError};

// Puts the word with the number `i` at the front of `s`, and returns its length. It is 0 if there is no such word, or if it is longer than `s`.
pub fn argument(rt: &impl Env, i: usize, s: &mut [u8]) -> usize
    ensures { result ≤ length s.new }
{
    match rt.arg(i, s) {
        Ok(n) => n,
        Err(_) => 0,
    }
}

// Tells whether there is a word with the number `i`.
pub fn has_argument(rt: &impl Env, i: usize) -> bool {
    let mut front = [0u8; 1];
    match rt.arg(i, &mut front) {
        Ok(_) => true,
        Err(FillError::TooLong) => true,
        Err(FillError::NotPresent) => false,
    }
}

// Returns how many words there are, with the program's name.
pub fn argument_count(rt: &impl Env) -> usize {
    for i in 0..usize::MAX {
        if !has_argument(rt, i) {
            return i;
        }
    }
    usize::MAX
}

// Returns the number that the word with the number `i` is, or 0 if there is no such word, or if it has more than twenty bytes.
pub fn number_argument(rt: &impl Env, i: usize) -> usize
    ensures { result < 20000000000 }
{
    let mut word = [0u8; 20];
    let n = argument(rt, i, &mut word);
    number(&word[..n])
}

// Tells whether the word with the number `i` is `name`, which has at most sixteen bytes. No clause can say what words a program is given.
pub fn is_argument(rt: &impl Env, i: usize, name: &[u8]) -> bool
    ensures { 16 < length name.now → result ≡ false }
{
    let mut word = [0u8; 16];
    let n = argument(rt, i, &mut word);
    same(&word[..n], name)
}
