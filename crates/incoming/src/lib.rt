// What comes in: frames (the source's engine/io.rs), what the engine asks of a packet's headers, and the gathering of an operation's
// packets.
#![tactic(auto)]

pub mod frame;
pub mod gather;
pub mod survey;
