// The batch: the commands of a lent trace done one after the other, their answers written to a lent list. Memory is examined at most once.

#![tactic(auto)]

// Words, header and scratch stay parameters of their own: C lends the words apart from the header, which goes back by value. A type that
// held them would hold a reference, and contracts over it would be assertions of the logic, as those of `Walker`.
pub mod batch;
pub mod perform;
pub mod trace;
