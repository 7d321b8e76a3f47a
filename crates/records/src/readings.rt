// The questions on readings by axis: `store ROOM WORDS` and `restore ROOM WORDS`, answered `NUMBER TARGET`. ROOM is the target's length in
// words; a word is four digits. The target is filled with ee first and shown whole.
ghost use Rattle.std.specs.Prelude.{◌≡◌, ◌≤◌, ◌<◌, ◌^◌, length};
ghost use Rattle.samples.specs.Axes.{coded_number};

use crate::answer::{bad_question, show_target};
use crate::question::room_of;
use lines::word::{after, find, unhex};
use samples::CodeError;

// The largest target that is asked about, in words: 1 MiB.
const LARGEST: usize = 524288;

// Returns the number of `answer`.
fn number(answer: Result<(), CodeError>) -> usize
    ensures { result ≡ coded_number answer }
{
    match answer {
        Ok(()) => 0,
        Err(CodeError::Short) => 10,
        Err(CodeError::Uneven) => 14,
    }
}

// Writes the 16-bit numbers whose bytes are `octets`, high-order byte first, to `words`, as many as there is room for, and returns how
// many.
fn words_of(octets: &[u8], words: &mut [u16]) -> usize
    ensures { result ≤ length words.new }
{
    let count = words.len().min(octets.len() / 2);
    // Stays a loop over an index: `count` is what is returned, and a `zip` would not say it.
    for k in 0..count {
        words[k] = u16::from_be_bytes([octets[2 * k], octets[2 * k + 1]]);
    }
    count
}

// Writes the bytes of the 16-bit numbers `words` to `octets`, as many as there is room for, and returns how many.
fn octets_of(words: &[u16], octets: &mut [u8]) -> usize
    ensures { result ≤ length octets.new }
{
    let count = words.len().min(octets.len() / 2);
    // Stays a loop over an index, as in `words_of`.
    for k in 0..count {
        octets[2 * k..2 * k + 2].copy_from_slice(&words[k].to_be_bytes());
    }
    2 * count
}

// Has `code` turn the words of `digits`, at most `WORDS`, into the first `room` places of a store of `ROOM`, and shows the answer's number
// and these places. `BYTES` has room for the bytes of both. It has a frame of its own,
// so that other questions need no room for these stores.
#[inline(never)]
fn show<
    F: Fn(&[u16], &mut [u16]) -> Result<(), CodeError>,
    const BYTES: usize,
    const WORDS: usize,
    const ROOM: usize,
>(rt: &impl Print, code: F, digits: &[u8], room: usize)
    requires callable { F.IsAlwaysCallable code }
    requires stores { (BYTES < 2 ^ 32) × (WORDS < 2 ^ 32) × (ROOM < 2 ^ 32) }
{
    let mut octets = [0u8; BYTES];
    let mut words = [0u16; WORDS];
    let mut store = [0xEEEEu16; ROOM];
    let n = unhex(digits, &mut octets);
    let k = words_of(&octets[..n], &mut words);
    let size = room.min(ROOM);
    let answer = code(&words[..k], &mut store[..size]);
    let shown = octets_of(&store[..size], &mut octets);
    show_target(rt, &[number(answer)], &octets[..shown]);
}

// Answers `ROOM WORDS` by `code`. Few words go through stores that are made quickly; no line has digits for more than 65,536.
pub(crate) fn answer<F: Fn(&[u16], &mut [u16]) -> Result<(), CodeError>>(
    rt: &impl Print,
    code: F,
    s: &[u8],
)
    requires { F.IsAlwaysCallable code }
{
    let gap = find(s, 0, b' ');
    let digits = &s[after(s, gap)..];
    match room_of(&s[..gap], digits, 4, LARGEST) {
        None => bad_question(rt),
        Some(room) if room <= 256 && digits.len() <= 1024 => show::<F, 512, 256, 256>(
            rt, code, digits, room,
        ),
        Some(room) => show::<F, 1048576, 65536, 524288>(rt, code, digits, room),
    }
}
