// The Gregorian calendar, and the two forms of time that OBEX has: LegacyTime, a count of seconds, and Time, a text.
#![tactic(auto)]

pub mod date;
pub mod time;
