// The scanners of a walk: what stands at a place of a text, and where it ends.
#![tactic(auto)]

pub mod name;
pub mod number;
pub mod word;
