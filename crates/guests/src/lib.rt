// What the other guests see where one guest's tasks are changed: definitions (specs/) and theorems (proofs/) over two plans, and no code.
#![tactic(auto)]
