// What calls of modes through C do, over every list of them (specs/Through.antt): theorems alone, no code.
#![tactic(auto)]
