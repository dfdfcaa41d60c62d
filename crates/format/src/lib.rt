// The bytes of a sheet: definitions and laws, and no code.
#![tactic(auto)]
