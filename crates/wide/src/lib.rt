// The calls that take letters beyond ASCII: the plain rules, with UTF-8 in the place of ASCII and characters told by the plain
// picture of a text. A text that is ASCII goes to the plain calls.
#![tactic(auto)]

pub mod client_id;
pub mod read;
pub mod rendering;
pub mod validate;
