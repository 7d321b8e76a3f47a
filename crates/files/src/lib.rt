// Names and paths of files, and what an error on a file means: what of serving files equations can say. The calls of the
// system on paths of bytes promise nothing, since no contract can say what a system does (docs/DECISIONS.md).
#![tactic(auto)]

pub mod error;
pub mod fault;
pub mod name;
pub mod path;
pub mod system;
