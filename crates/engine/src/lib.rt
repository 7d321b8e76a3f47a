// The server engine: a state machine over lent stores (the source's engine/server.rs). A host needs `calls`, and the types of `server`.
#![tactic(auto)]

pub mod calls;
mod close;
mod connect;
mod dispatch;
mod guard;
mod object;
mod operation;
mod request;
mod step;
