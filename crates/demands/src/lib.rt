// The demands: definitions and theorems alone, with no code.
#![tactic(auto)]
