// What goes out: an object's headers and body, split into reply packets, and what is put back into what is still to be sent (the source's
// engine/body.rs).
#![tactic(auto)]

pub mod object;
pub mod queue;
