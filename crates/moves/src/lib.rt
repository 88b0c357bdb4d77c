// Linking: the four moves, the four value forms, detach and detach children.
// The public calls ask for nothing; the work under their guard is callable without examining again.

#![tactic(auto)]

// Words, header and scratch stay parameters of their own: C lends the words apart from the header, which goes back by value. A type that
// held them would hold a reference, and contracts over it would be assertions of the logic, as those of `Walker`.
// So what ties words and header stands in the contracts.
pub mod calls;
pub mod detach;
pub mod id;
pub mod place;
pub mod value;
