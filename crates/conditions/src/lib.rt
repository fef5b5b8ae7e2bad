// Conditions 1 and 3 of every input and every run: what they say (specs/) and that they hold (proofs/), no code.
#![tactic(auto)]
