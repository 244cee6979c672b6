// 003's chains and words as definitions (specs/), with their theory (proofs/). No code.
#![tactic(auto)]
