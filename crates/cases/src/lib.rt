// Worked cases: definitions and what is computed of them.
#![tactic(auto)]
