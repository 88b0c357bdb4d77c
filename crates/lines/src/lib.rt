// Answers as text: the number, a space, the result in decimal and a newline for each.

#![tactic(auto)]

pub mod decimal;
pub mod lines;
