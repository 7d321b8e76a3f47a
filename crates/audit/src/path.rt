// The paths of what is read and written: below a session's folder, and in the folder for what is extracted.
ghost use Rattle.std.specs.Prelude.{◌≤◌, length};

use files::path::{front, join};
use filing::names::{part_name, record_name};
use lines::arguments::argument;
use lines::output::put;
use std::env::Env;

// How long a path may be.
pub(crate) const PATH: usize = 4096;

// The longest name of a folder that the program takes.
pub(crate) const FOLDER: usize = 3584;

// How many records of a session have names.
pub(crate) const MOST: u32 = 999999;

// What the program was asked to do: the arguments that name the session's folder and the folder for what is extracted (0: nothing is).
#[derive(Clone, Copy)]
pub(crate) struct Task {
    pub session: usize,
    pub extract: usize,
}

// Puts the path of `name` below the folder that argument `i` names at the front of `path`, and returns how long it is.
pub(crate) fn below(rt: &impl Env, i: usize, name: &[u8], path: &mut [u8]) -> usize
    ensures { result ≤ length path.new }
{
    let mut folder = [0u8; FOLDER];
    let n = argument(rt, i, &mut folder);
    join(&folder[..n], name, path)
}

// Puts the path of a file of a record at the front of `path`, and returns how long it is. The file `.` is the record's folder itself.
pub(crate) fn record_file(
    rt: &impl Env,
    i: usize,
    number: u32,
    file: &[u8],
    path: &mut [u8],
) -> usize
    ensures { result ≤ length path.new }
{
    let name = record_name(number);
    let mut inner = [0u8; 32];
    let n = join(&name, file, &mut inner);
    below(rt, i, front(&inner, n), path)
}

// Puts the path of the folder of a record that was not filed to its end at the front of `path`, and returns how long it is.
pub(crate) fn part_folder(rt: &impl Env, i: usize, number: u32, path: &mut [u8]) -> usize
    ensures { result ≤ length path.new }
{
    let name = part_name(number);
    let mut inner = [0u8; 32];
    let n = join(&name, b".", &mut inner);
    below(rt, i, front(&inner, n), path)
}

// Returns the last name of a path, without the slashes behind it.
pub(crate) fn base_of(path: &[u8]) -> &[u8] {
    let end = match path.iter().rposition(|b| *b != b'/') {
        Some(last) => last + 1,
        None => path.len(),
    };
    match path[..end].iter().rposition(|b| *b == b'/') {
        Some(slash) => &path[slash + 1..end],
        None => &path[..end],
    }
}

// Puts the path of a file of an extracted record at the front of `path`, and returns how long it is: the session's folder and the record's number are
// in its name.
pub(crate) fn extract_file(
    rt: &impl Env,
    task: Task,
    number: u32,
    end: &[u8],
    path: &mut [u8],
) -> usize
    ensures { result ≤ length path.new }
{
    let mut folder = [0u8; FOLDER];
    let k = argument(rt, task.session, &mut folder);
    let digits = record_name(number);
    let mut name = [0u8; PATH];
    let a = put(&mut name, 0, base_of(&folder[..k]));
    let b = put(&mut name, a, b"-");
    let c = put(&mut name, b, &digits);
    let d = put(&mut name, c, b".");
    let n = put(&mut name, d, end);
    below(rt, task.extract, front(&name, n), path)
}
