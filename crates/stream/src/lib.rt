// Inputs of any length as lines, and programs that answer them line by line: definitions and laws, no function.
#![tactic(auto)]
