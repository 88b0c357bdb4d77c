// The command program: what a turn of it does, and the reading and writing around it.

#![tactic(auto)]

// Words, header, scratch and what is known stay parameters of their own, as the calls of batch and command take them.
pub mod serve;
pub mod turn;
