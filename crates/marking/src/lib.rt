// Marking: definitions and laws alone, with no code.
#![tactic(auto)]
