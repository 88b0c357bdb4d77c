// Theorems about removal: the forest after each call is the one of the rules, freed slots join in order, ready memory stays ready.

#![tactic(auto)]
