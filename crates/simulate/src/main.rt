// Answers the questions of planners, one question a line and one answer a line. `get N M on|off` plays the Get of a body of N bytes under
// the limit M, with Single Response Mode (SRM) in the session or without, and is answered `NUMBER PACKETS REQUESTS`. `range N N M M on|off`
// asks for the fewest and the most packets of a range of bodies and one of limits, and is answered `NUMBER LEAST GREATEST`. `table N on|off`
// plays the Get under each of ten limits, and is answered by a line `LIMIT PACKETS REQUESTS` for each. A refusal shows its number, with 0 for
// both counts. A line that is no question of these, or has not its form, is answered `bad question`.
#![tactic(auto)]

mod answer;
mod question;

use crate::answer::Answer;
use crate::question::Question;
use lines::input::lines_of;
use simulator::{simulate, simulate_range};
use std::io;

// The limits of a table: each that is a power of two, the least and the greatest of all, and 672.
const LIMITS: [u32; 10] = [255, 512, 672, 1024, 2048, 4096, 8192, 16384, 32768, 65535];

// Answers one line. A line that is longer than the store is no question.
fn line(rt: &impl Print, s: &[u8], is_cut: bool) -> io::Result<()> {
    let question = if is_cut { None } else { Question::parse(s) };
    match question {
        Some(Question::Get { n, m, srm }) => {
            print!(rt; "{}", Answer::simulated(simulate(n, m, srm)))
        }
        Some(
            Question::Range {
                n0,
                n1,
                m0,
                m1,
                srm,
            },
        ) => print!(rt; "{}", Answer::ranged(simulate_range(n0, n1, m0, m1, srm))),
        Some(Question::Table { n, srm }) => {
            // A row that cannot be written is left out, and the next one is tried.
            for m in LIMITS {
                let _ = print!(rt; "{}", Answer::row(m, simulate(n, m, srm)));
            }
            Ok(())
        }
        None => rt.println("bad question"),
    }
}

// Answers the lines of standard input. Every question fits in the store. What cannot be written is left out.
fn main(rt: HostRuntime) {
    let mut input = [0u8; 4096];
    lines_of(&mut rt.stdin(), &mut input, |s, is_cut| {
        let _ = line(&rt, s, is_cut);
    });
}
