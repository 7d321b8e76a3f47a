// The table store: 64-bit numbers at fixed places, which the host lends to the calls that look at them, so that a state of few bytes goes
// from call to call. The open ids stand first (`connection::peer`), then the nonces that were taken last, then the Targets of the ids.
#![tactic(auto)]

pub mod nonces;
pub mod targets;

// How long the table store must be: a call that is lent a shorter one is refused.
pub const TABLE_LENGTH: usize = 320;
