// The text that the program prints (paper 01, "Cases"), defined, and what is said of it; no code.
#![tactic(auto)]
