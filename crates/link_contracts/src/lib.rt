// The claims of crates/link over the contracts of the client's and the engine's own functions: what is claimed stands in specs/, why it holds in
// proofs/.

#![tactic(auto)]
