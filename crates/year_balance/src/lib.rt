// The balance of a year's printed numbers: definitions and laws.
#![tactic(auto)]
