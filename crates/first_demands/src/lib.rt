// Demands 1 and 2 of the user, as theorems over every call of document 01.
// Definitions and theorems only: see specs.

#![tactic(auto)]
