// Runs of free words: definitions and laws alone, with no code.
#![tactic(auto)]
