#![tactic(auto)]

// General facts on tests, numbers and lists, for the proofs of all crates. No code.
