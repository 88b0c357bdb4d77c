// Calls of document 01 one after the other: what they answered, and what that says of the memory then.
// Definitions and theorems only: see specs.

#![tactic(auto)]
