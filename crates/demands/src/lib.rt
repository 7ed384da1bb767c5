// The demands, as theorems over the contracts of the other crates. This crate has no code.
#![tactic(auto)]
