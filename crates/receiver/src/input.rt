// The client's bytes, as they come on standard input.
ghost use Rattle.std.specs.Prelude.{◌≤◌, length, IfOk};

use crate::system::error;
use crate::tell;
use filing::paths::SessionId;
use std::env::Env;
use std::io;
use std::io::{ErrorKind, Read};
use std::time::Clock;

// How many bytes at the front of the input store stay unused: half a page between it and the target of a copy (docs/PERFORMANCE.md).
const LEAD: usize = 2048;

// How long the input store is, of which a read fills 65,536 bytes.
pub(crate) const INPUT: usize = 67584;

// How often a read is tried again that a signal has interrupted.
const TRIES: usize = 1000;

// The part of the input store that was read and that the engine has not taken yet.
#[derive(Clone, Copy)]
pub(crate) struct Rest {
    pub at: usize,
    pub end: usize,
}

// Reads standard input once. A process that is stopped and continued may find its read interrupted, which is no failure.
fn read_once(from: &mut impl Read, s: &mut [u8]) -> io::Result<usize>
    ensures { IfOk result (λ n. n ≤ length s.new) }
{
    let mut tries = TRIES;
    while tries > 0 {
        match from.read(s) {
            Ok(n) => {
                return Ok(n);
            }
            Err(e) => {
                if e.kind() != ErrorKind::Interrupted {
                    return Err(e);
                }
            }
        }
        tries -= 1;
    }
    from.read(s)
}

// Returns how many bytes were read. None were if the stream has ended or cannot be read; the latter is told.
fn read(
    from: &mut impl Read,
    rt: &(impl Env + Clock),
    err: &impl Print,
    id: SessionId,
    s: &mut [u8],
) -> usize
    ensures { result ≤ length s.new }
{
    match read_once(from, s) {
        Ok(n) => n,
        Err(e) => {
            tell::no_input(rt, err, id, error(&e));
            0
        }
    }
}

// Reads standard input once if nothing is left. If nothing is left after that, the stream has ended, or cannot be read, which is told.
pub(crate) fn refilled(
    from: &mut impl Read,
    rt: &(impl Env + Clock),
    err: &impl Print,
    rest: Rest,
    id: SessionId,
    input: &mut [u8],
) -> Rest
    requires { 2048 ≤ length input.old }
    ensures { (result.at ≤ result.end) × (result.end ≤ length input.new) }
{
    if rest.at < rest.end {
        if rest.end <= input.len() {
            return rest;
        }
    }
    let n = read(from, rt, err, id, &mut input[LEAD..]);
    Rest {
        at: LEAD,
        end: LEAD + n,
    }
}
