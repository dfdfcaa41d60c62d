// What the public calls promise together, as theorems over their definitions: see specs/Promise.antt first.
#![tactic(auto)]
