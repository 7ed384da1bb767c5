// Definitions: records in the order of their keys, and what a call asks of a book. One of them is a type that code names.
#![tactic(auto)]

// How a call takes its text: a plain call only where it is its own key, a lenient one in every spelling.
#[derive(Clone, Copy)]
pub enum Manner {
    Plain,
    Lenient,
}
