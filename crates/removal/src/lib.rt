// Removing a node, a subtree, or the children of a node. The changes are those of the Rust's `id.rs`, over lent words and a header by
// value; the public calls examine memory first and ask for nothing.

#![tactic(auto)]

// Words, header and scratch stay parameters of their own: C lends the words apart from the header, which goes back by value. A type that
// held them would hold a reference, and contracts over it would be assertions of the logic, as those of `Walker`.
// So what ties words and header stands in the contracts.
pub mod id;
pub mod removal;
