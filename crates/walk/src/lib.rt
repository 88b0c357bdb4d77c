// Walking: edges, what follows each, and the stepped walk. Words are only read.

#![tactic(auto)]

// Words, how many slots are in use, and the root stay parameters of their own, as in the definitions. A type that held the words would
// hold a reference, and contracts over it would be assertions of the logic, as those of `Walker`.
pub mod code;
pub mod edge;
pub mod run;
pub mod walk;
