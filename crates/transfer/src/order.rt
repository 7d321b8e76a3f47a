// What the program was started for: `transfer put|get NAME FILE`, and behind that words in pairs, `target HEX`, `user TEXT`, `password TEXT`
// and `abort N`.
ghost use Rattle.std.specs.Prelude.{◌≤◌, length};

use check::same;
use lines::arguments::{argument, argument_count, has_argument};
use lines::word::{number, unhex};
use std::env::Env;

// How long a word of the command may be.
pub const WORD: usize = 1024;

// The word that is missing.
const MISSING: usize = 0;

// Whether the argument with the number `i` is the word `name`. The words stand at even places.
fn is_word(rt: &impl Env, i: usize, name: &[u8]) -> bool {
    let mut word = [0u8; 16];
    let n = argument(rt, i, &mut word);
    if i % 2 != 0 {
        return false;
    }
    same(&word[..n], name)
}

// Returns the number of the argument behind the word `name`, or 0 if the word is missing. The words stand from the fourth argument on.
fn place_of(rt: &impl Env, name: &[u8]) -> usize {
    for i in 4..usize::MAX {
        if !has_argument(rt, i) {
            return MISSING;
        }
        if is_word(rt, i, name) {
            return i + 1;
        }
    }
    MISSING
}

// Puts the argument behind the word `name` at the front of `store`, and returns its length.
pub(crate) fn word_behind(rt: &impl Env, name: &[u8], store: &mut [u8]) -> usize
    ensures { result ≤ length store.new }
{
    let i = place_of(rt, name);
    if i == MISSING {
        return 0;
    }
    argument(rt, i, store)
}

// Whether the word `name` is among the arguments.
pub(crate) fn has_word(rt: &impl Env, name: &[u8]) -> bool {
    place_of(rt, name) != MISSING
}

// Puts the Target's bytes at the front of `store`, and returns how many there are.
pub(crate) fn target(rt: &impl Env, store: &mut [u8]) -> usize
    ensures { result ≤ length store.new }
{
    let mut word = [0u8; WORD];
    let n = word_behind(rt, b"target", &mut word);
    unhex(&word[0..n], store)
}

// Returns how many packets of the operation go and parts come before the Abort, if there is to be one.
pub(crate) fn events_before_abort(rt: &impl Env) -> usize {
    let mut word = [0u8; WORD];
    let n = word_behind(rt, b"abort", &mut word);
    number(&word[0..n])
}

fn is_operation(rt: &impl Env, name: &[u8]) -> bool {
    let mut word = [0u8; 16];
    let n = argument(rt, 1, &mut word);
    same(&word[..n], name)
}

// Whether a file is to be put. Otherwise one is to be got.
pub(crate) fn is_put(rt: &impl Env) -> bool {
    is_operation(rt, b"put")
}

// Whether the arguments say what is to be done.
pub(crate) fn is_clear(rt: &impl Env) -> bool {
    if !has_argument(rt, 3) {
        return false;
    }
    if argument_count(rt) % 2 != 0 {
        return false;
    }
    if is_put(rt) {
        return true;
    }
    is_operation(rt, b"get")
}

// Puts the path of the file at the front of `store`, and returns its length.
pub(crate) fn path(rt: &impl Env, store: &mut [u8]) -> usize
    ensures { result ≤ length store.new }
{
    argument(rt, 3, store)
}

// Puts the object's Name at the front of `store`, and returns its length.
pub(crate) fn name(rt: &impl Env, store: &mut [u8]) -> usize
    ensures { result ≤ length store.new }
{
    argument(rt, 2, store)
}
