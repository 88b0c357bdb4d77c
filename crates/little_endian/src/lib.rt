// Numbers as bytes, the lowest byte first: a number read from 2 or 4 bytes, the 2 or 4 bytes of a number, and runs of 32-bit words.
// Contracts say what is read and written on lists of bytes, and nothing of how: the inside may change with no caller touched.

#![tactic(auto)]

pub mod number;
pub mod words;
