// The moves of a chain: definitions (specs/) and theory (proofs/) alone. The code is in the crate bench.
#![tactic(auto)]
