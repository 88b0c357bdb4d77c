// Commands: the table of codes, the call that each names, what is known of the memory so that a batch examines at most once, a command
// started where memory is not known to be ready, one done where it is, and the work that a code leads to.

#![tactic(auto)]

// Words, header and scratch stay parameters of their own: C lends the words apart from the header, which goes back by value. A type that
// held them would hold a reference, and contracts over it would be assertions of the logic, as those of `Walker`.
// So `Knows`, which ties what is known to words and scratch, stands in the contracts.
pub mod act;
pub mod call;
pub mod code;
pub mod command;
pub mod known;
pub mod start;
pub mod work;
