// Audits sessions as a receiver files them (docs/ARCHIVE.md#as-a-receiver-files-it): reads the log of each, computes by the proved code of the
// journal which records must have been handed over, and compares them with what is filed (docs/AUDIT.md).
#![tactic(auto)]

mod compare;
mod entry;
mod filed;
mod path;
mod place;
mod session;
mod shown;
mod verdict;
mod waiting;

use crate::entry::BODY;
use crate::filed::FILED;
use crate::path::{FOLDER, Task};
use crate::place::STORE;
use crate::session::{Stores, audit_session};
use crate::shown::{OUT, print_totals};
use crate::verdict::{Counts, added};
use check::same;
use lines::arguments::{argument, argument_count, has_argument};
use lines::output::print;
use std::env::Env;
use std::fs::Files;
use std::num::wrapping_add_usize;

// Tells whether the first argument asks that grave records are extracted.
fn is_extracting(rt: &impl Env) -> bool {
    let mut word = [0u8; FOLDER];
    let n = argument(rt, 1, &mut word);
    same(&word[..n], b"--extract")
}

// Returns the first task: the arguments behind the options are sessions.
fn first_task(rt: &impl Env) -> Task {
    if is_extracting(rt) {
        return Task {
            session: 3,
            extract: 2,
        };
    }
    Task {
        session: 1,
        extract: 0,
    }
}

// Audits all sessions of the task, and prints the counts of all.
fn audit_all<R: Env + Files + Print>(
    rt: &R,
    err: &impl Print,
    first: Task,
    stores: &mut Stores<'_>,
) {
    let mut counts = Counts {
        records: 0,
        same: 0,
        grave: 0,
    };
    let mut sessions = 0;
    for session in first.session..argument_count(rt) {
        let task = Task { session, ..first };
        counts = added(counts, audit_session(rt, err, task, stores));
        sessions = wrapping_add_usize(sessions, 1);
    }
    print_totals(rt, sessions, counts);
}

fn main(rt: HostRuntime) {
    let task = first_task(&rt);
    if !has_argument(&rt, task.session) {
        print(&rt.stderr(), b"usage: audit [--extract DIR] SESSION ..\n");
        return;
    }
    let mut log = [0u8; STORE];
    let mut packet = [0u8; 65535];
    let mut headers = [0u8; 65535];
    let mut body = [0u8; BODY];
    let mut tables = [0u64; 320];
    let mut filed = [0u8; FILED];
    let mut out = [0u8; OUT];
    let mut stores = Stores {
        log: &mut log,
        packet: &mut packet,
        headers: &mut headers,
        body: &mut body,
        tables: &mut tables,
        filed: &mut filed,
        out: &mut out,
    };
    audit_all(&rt, &rt.stderr(), task, &mut stores);
}
