// Paths below the receiver's folder, which is the program's first argument.
ghost use Rattle.std.specs.Prelude.{◌≤◌, length};

use files::path::join;
use filing::paths::{Place, SessionId, record_path};
use lines::arguments::argument;
use std::env::Env;

// How long a path may be.
pub(crate) const PATH: usize = 4096;

// The longest name of the folder: the program does not start with a longer one, so that every path has room.
pub(crate) const FOLDER: usize = 3584;

// Returns the bytes of `s` from `from` to `to`, or none if they do not lie in it.
pub(crate) fn part(s: &[u8], from: usize, to: usize) -> &[u8] {
    if from <= to {
        if to <= s.len() {
            return &s[from..to];
        }
    }
    &s[0..0]
}

// Puts the path of `name` in the receiver's folder at the front of `path`, and returns how long it is.
pub(crate) fn in_folder(rt: &impl Env, name: &[u8], path: &mut [u8]) -> usize
    ensures { result ≤ length path.new }
{
    let mut folder = [0u8; FOLDER];
    let n = argument(rt, 1, &mut folder);
    join(&folder[..n], name, path)
}

// Puts the path of a place of the archive at the front of `path`, and returns how long it is.
pub(crate) fn in_archive(
    rt: &impl Env,
    session: SessionId,
    number: u32,
    place: Place,
    path: &mut [u8],
) -> usize
    ensures { result ≤ length path.new }
{
    let mut folder = [0u8; FOLDER];
    let n = argument(rt, 1, &mut folder);
    record_path(&folder[..n], session, number, place, path)
}
