// A receiver of records: the client's bytes come on standard input, and replies go to standard output, for one connection. Each record is filed with
// its packets before the client is told success, rule files are given out, and passwords are checked (docs/RECEIVER.md).
#![tactic(auto)]

mod answers;
mod checks;
mod clock;
mod conf;
mod input;
mod log;
mod path;
mod record;
mod rules;
mod session;
mod system;
mod tell;
mod turn;

use crate::input::INPUT;
use crate::log::WORK;
use crate::path::FOLDER;
use crate::system::Held;
use crate::turn::run;
use lines::arguments::{argument, has_argument};
use lines::output::print;
use reception::call::BODY;
use std::env::Env;

// Returns whether the program was started with a folder whose paths have room, and with no more than the client's address.
fn is_started_right(rt: &impl Env) -> bool {
    if !has_argument(rt, 1) {
        return false;
    }
    if has_argument(rt, 3) {
        return false;
    }
    let mut folder = [0u8; FOLDER];
    argument(rt, 1, &mut folder) != 0
}

fn main(rt: HostRuntime) {
    if !is_started_right(&rt) {
        print(&rt.stderr(), b"usage: receiver FOLDER [PEER]\n");
        return;
    }
    let mut held = Held {
        log: None,
        rule: None,
        check: None,
    };
    let mut input = [0u8; INPUT];
    let mut work = [0u8; WORK];
    let mut tables = [0u64; 320];
    let mut packet = [0u8; 65535];
    let mut headers = [0u8; 65535];
    let mut body = [0u8; BODY];
    let mut reply = [0u8; 65535];
    run(
        &mut rt.stdin(),
        &rt,
        &rt.stderr(),
        &mut held,
        &mut input,
        &mut work,
        &mut tables,
        &mut packet,
        &mut headers,
        &mut body,
        &mut reply,
    );
}
