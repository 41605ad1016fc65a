// Gate lists for the switches (paper 02, request 13): their definitions (specs/) and what they say of a link (proofs/), and no code.
#![tactic(auto)]
