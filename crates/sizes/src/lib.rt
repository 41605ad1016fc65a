// How long dispatch tables and the text can be: bounds (specs/) and their proofs, and no code.
#![tactic(auto)]
