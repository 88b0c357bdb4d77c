// The face for C and Rust: each public call under a name of its own, with the header as three words and the result behind a pointer.
// Nothing is decided here: a function unpacks, calls and packs. One module for each group of calls; crate lift_c_c gives them to C.

#![tactic(auto)]

pub mod batching;
pub mod comparing;
pub mod counting;
pub mod creating;
pub mod imaging;
pub mod listing;
pub mod moving;
pub mod packing;
pub mod reading;
pub mod removing;
pub mod validating;
pub mod walking;
