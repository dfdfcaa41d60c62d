// What the planning table promises about the bytes of a sheet, as theorems over the definitions of its text: see specs/Promise.antt.
#![tactic(auto)]
