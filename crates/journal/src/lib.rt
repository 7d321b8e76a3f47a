// This crate has definitions and theorems only: which records a list of calls must hand over, said without the engine.

#![tactic(auto)]
