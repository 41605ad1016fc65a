// What two load tools in C see of two plans that differ in one VCPU: definitions (specs/) and theorems (proofs/), and no code.
#![tactic(auto)]
