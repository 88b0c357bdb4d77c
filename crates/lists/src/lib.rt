// Lists of nodes: in orders that go by a step from node to node, and in level order. Words are only read.

#![tactic(auto)]

// Words, how many slots are in use, and scratch stay parameters of their own: C lends the words apart from the header, which goes back by
// value. A type that held them would hold a reference, and contracts over it would be assertions of the logic, as those of `Walker`.
pub mod calls;
pub mod levels;
pub mod lists;
mod nodes;
pub mod order;
