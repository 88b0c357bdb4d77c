// The image of an arena: memory as bytes, and bytes as memory. Every function equals a definition of specs/ on any bytes and any memory.

#![tactic(auto)]

// Words, header and scratch stay parameters of their own: C lends the words apart from the header, which goes back by value. A type that
// held them would hold a reference, and contracts over it would be assertions of the logic, as those of `Walker`.
pub mod format;
pub mod load;
pub mod save;
pub mod unlink;
