// The symbols for C: each function of lift_c's face once more, under its own name, with its clauses. include/lift.h declares them.
// Nothing is decided or packed here: a function calls. One module for each of lift_c's. They stand apart from these since a crate is a
// library, as lift_c for callers in the language, or a static library, as this one for C.

#![tactic(auto)]

pub mod batching;
pub mod comparing;
pub mod counting;
pub mod creating;
pub mod imaging;
pub mod listing;
pub mod moving;
pub mod reading;
pub mod removing;
pub mod validating;
pub mod walking;
