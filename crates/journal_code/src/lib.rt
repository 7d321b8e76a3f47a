// The journal and the naming of Targets as code (docs/PROTOCOL.md#journal): which records a log stands for. It is proved against the definitions
// of `journal` and `filing`, and sees no engine.
#![tactic(auto)]

pub mod answer;
pub mod heading;
pub mod receive;
pub mod route;
pub mod state;
