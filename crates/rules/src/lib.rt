// The one vocabulary of answers: document 01's numbers, and what a call hands back. What the numbers mean is in specs/.

#![tactic(auto)]

pub mod answer;
