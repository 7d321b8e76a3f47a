// What a receiver files, in which order, and what its log says.
#![tactic(auto)]

pub mod conf;
pub mod content;
pub mod entry;
pub mod file;
pub mod frame;
pub mod line;
pub mod names;
pub mod note;
pub mod paths;
pub mod payload;
pub mod plan;
pub mod tries;
pub mod users;
