// Connections (of the source's engine/server.rs): the ids that are open, authentication, the checks of passwords, the reply to a Connect,
// and every reply's writer.
#![tactic(auto)]

pub mod challenge;
pub mod checks;
pub mod connect_reply;
pub mod peer;
pub mod reply;
pub mod request;
