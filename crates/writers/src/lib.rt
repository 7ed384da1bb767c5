// Writers, as `read_kinds` has readers: of some of the components, of the nineteen kinds, and of the texts that paths stand under.
// Each needs room, writes from `at` on, and returns the place after what it wrote.
#![tactic(auto)]

pub mod kinds;
pub mod parents;
mod pieces;
