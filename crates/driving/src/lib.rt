// A load tool that steps by the tick timer, through C (specs/, proofs/): there is no code here.
#![tactic(auto)]
