// The examination of memory: three passes over the slots in use, with the lent scratch as its only memory.
// Its answer equals a model on any words; that the model says yes exactly for sound memory is proved above this crate.

#![tactic(auto)]

// Words, how many slots are in use, and scratch stay parameters of their own: C lends the words apart from the header, which goes back by
// value. A type that held them would hold a reference, and contracts over it would be assertions of the logic, as those of `Walker`.
// So what ties words and header stands in the contracts.
pub mod chain;
pub mod examine;
pub mod marks;
pub mod slots;
