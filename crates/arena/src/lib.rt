// Creation, the free list, single reads, set, clear and the census, over lent words and a header by value.
// Each function equals a definition of specs/; what is said of any memory asks for nothing.

#![tactic(auto)]

// Words, header and scratch stay parameters of their own: C lends them so, and the definitions of specs/ take them so.
pub mod arena;
pub mod census;
pub mod node;
