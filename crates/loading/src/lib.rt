// What a load tool in C has, from its first call on: definitions (specs/) and theorems (proofs/) over the calls of reaperdecade, and no code.
#![tactic(auto)]
