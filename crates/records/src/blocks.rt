// The questions on blocks for the archive: `write ROOM BODY` and `read ROOM BLOCKS`, answered `NUMBER LENGTH TARGET`. ROOM is the target's
// length in bytes. LENGTH is the result's, and 0 with a refusal. The target is filled with ee first and shown whole.
ghost use Rattle.std.specs.Prelude.{◌<◌, ◌^◌};

use crate::answer::{bad_question, show_target};
use crate::question::room_of;
use archive::block::{self, body_number, wrote_number};
use lines::word::{after, find, unhex};

// The largest target that is asked about: 1 MiB.
const LARGEST: usize = 1048576;

// What a call told: the number of its answer, and the length of its result.
#[derive(Clone, Copy)]
pub(crate) struct Told {
    number: usize,
    length: usize,
}

// Writes `source` as blocks to `target`.
// Stays beside `read`: the two answers of the archive are two types.
pub(crate) fn write(source: &[u8], target: &mut [u8]) -> Told {
    let answer = block::write(source, target);
    Told {
        number: wrote_number(answer),
        length: answer.unwrap_or(0),
    }
}

// Reads the body of the blocks `source` into `target`.
pub(crate) fn read(source: &[u8], target: &mut [u8]) -> Told {
    let answer = block::read(source, target);
    Told {
        number: body_number(answer),
        length: answer.unwrap_or(0),
    }
}

// Has `call` turn the bytes of `digits`, at most `BYTES`, into the first `room` places of a store of `ROOM`, and shows what was told and
// these places. It has a frame of its own, so that other questions need no room for these stores.
#[inline(never)]
fn show<F: Fn(&[u8], &mut [u8]) -> Told, const BYTES: usize, const ROOM: usize>(
    rt: &impl Print,
    call: F,
    digits: &[u8],
    room: usize,
)
    requires callable { F.IsAlwaysCallable call }
    requires stores { (BYTES < 2 ^ 32) × (ROOM < 2 ^ 32) }
{
    let mut source = [0u8; BYTES];
    let mut store = [0xEEu8; ROOM];
    let n = unhex(digits, &mut source);
    let size = room.min(ROOM);
    let told = call(&source[..n], &mut store[..size]);
    show_target(rt, &[told.number, told.length], &store[..size]);
}

// Answers `ROOM BYTES` by `call`. Few bytes go through stores that are made quickly; no line has digits for more than 131,072.
pub(crate) fn answer<F: Fn(&[u8], &mut [u8]) -> Told>(rt: &impl Print, call: F, s: &[u8])
    requires { F.IsAlwaysCallable call }
{
    let gap = find(s, 0, b' ');
    let digits = &s[after(s, gap)..];
    match room_of(&s[..gap], digits, 2, LARGEST) {
        None => bad_question(rt),
        Some(room) if room <= 2048 && digits.len() <= 4096 => show::<F, 2048, 2048>(
            rt, call, digits, room,
        ),
        Some(room) => show::<F, 131072, 1048576>(rt, call, digits, room),
    }
}
