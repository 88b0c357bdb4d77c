// The changes of a tree on memory that is known to be ready, by the fewest writes: a node leaves its place, or comes to one, by one
// write from its left and one from its right. What each change does to the words is what the crates `moves` and `removal` say.
// Why it stands beside these two is decision L28; that the words are the same is proved in specs/ReadyLaws.

#![tactic(auto)]

pub mod splice;
pub mod spot;
pub mod work;
