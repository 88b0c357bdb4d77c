// Any two outcomes that a public function's statement allows are equal.
// Definitions and theorems only: see specs.

#![tactic(auto)]
