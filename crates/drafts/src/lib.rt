// Drafts (paper 02, request 6): a plan's pieces in lent words, edited one by one, with the totals of jobs and cores kept beside them. The
// definitions (specs/) and the theorems over lists of edits (proofs/), and no code.
#![tactic(auto)]
