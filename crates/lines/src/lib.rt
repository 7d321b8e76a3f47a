// Lines of text, for the programs: reading them, bytes as words of a line, and an output that is collected in a lent store or on the heap; and the words that a
// program is started with.
#![tactic(auto)]

pub mod arguments;
pub mod input;
pub mod output;
pub mod printed;
pub mod queue;
pub mod store;
pub mod text;
pub mod word;
