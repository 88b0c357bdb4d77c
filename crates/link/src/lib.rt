// The lowest layer: the words of a slot, stamps, identifiers, and the surgery on links.
// Every function equals a definition of specs/ on any memory; crates above see only these contracts.

#![tactic(auto)]

pub mod choice;
pub mod header;
pub mod id;
pub mod relations;
pub mod siblings_range;
pub mod words;
