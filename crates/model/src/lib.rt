// The model has definitions and theorems, and no code: its types are those of `server`.

#![tactic(auto)]
