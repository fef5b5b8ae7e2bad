// Condition 3 is sharp: runs (specs/) that reach its bound and that need its premise, computed (proofs/), no code.
#![tactic(auto)]
