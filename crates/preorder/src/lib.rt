// The node and all below it as a list, on ready memory with a stack in scratch: what comes behind a subtree is not searched for.

#![tactic(auto)]

// Words, header and scratch stay parameters of their own: C lends the words apart from the header, which goes back by value. A type that
// held them would hold a reference, and contracts over it would be assertions of the logic, as those of `Walker`.
pub mod calls;
pub mod preorder;
