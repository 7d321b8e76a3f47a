// The peer's stream on standard input, for the programs over the engine: its bytes are offered, requests are named, and a host answers
// them that keeps nothing.
#![tactic(auto)]

pub mod answers;
pub mod feed;
pub mod names;
