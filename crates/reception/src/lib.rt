// What a receiver decides, which call it makes of that and what it notes of it in its log.
#![tactic(auto)]

pub mod answer;
pub mod call;
pub mod decide;
pub mod note;
