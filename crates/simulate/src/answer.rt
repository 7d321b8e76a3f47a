// The answers, a line each.
ghost use Rattle.std.specs.Prelude.{◌≡◌};
ghost use Rattle.simulator.specs.Play.{simulated_number, ranged_number};

use simulator::{Ranged, Simulated};
use std::fmt;

// A line of three numbers: the first says what the two counts are of, the number of an answer or the limit of a row.
#[derive(Clone, Copy)]
pub struct Answer {
    first: u32,
    counts: [u64; 2],
}

impl fmt::Display for Answer {
    fn fmt<W: fmt::Write>(&self, f: &mut fmt::Formatter<W>) -> fmt::Result {
        let [a, b] = self.counts;
        writeln!(f, "{} {a} {b}", self.first)
    }
}

// Returns the number of an answer of `simulate`.
fn simulated_number(a: Simulated) -> u32
    ensures { result ≡ simulated_number a }
{
    match a {
        Simulated::Counts { .. } => 0,
        Simulated::Outside => 22,
    }
}

// Returns the number of an answer of `simulate_range`.
fn ranged_number(a: Ranged) -> u32
    ensures { result ≡ ranged_number a }
{
    match a {
        Ranged::Packets { .. } => 0,
        Ranged::Outside => 22,
    }
}

impl Answer {
    // Returns the answer that `simulate` gives; a refusal shows 0 for both counts.
    pub(crate) fn simulated(a: Simulated) -> Answer {
        Answer::row(simulated_number(a), a)
    }

    // Returns the answer that `simulate_range` gives; a refusal shows 0 for both counts.
    pub(crate) fn ranged(a: Ranged) -> Answer {
        Answer {
            first: ranged_number(a),
            counts: match a {
                Ranged::Packets { least, greatest } => [least, greatest],
                Ranged::Outside => [0, 0],
            },
        }
    }

    // Returns the row of a table: the limit `m`, and what `simulate` gives for it.
    pub(crate) fn row(m: u32, a: Simulated) -> Answer {
        Answer {
            first: m,
            counts: match a {
                Simulated::Counts { packets, requests } => [packets, requests],
                Simulated::Outside => [0, 0],
            },
        }
    }
}
