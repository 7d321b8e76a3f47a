// Records for the archive (request (a)).
#![tactic(auto)]

pub mod block;
