// The user's demands as theorems over every call, in the user's words.
// Theorems only: see specs.

#![tactic(auto)]
