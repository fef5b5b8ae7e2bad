// What holds of the registers: what changing one vector does to each, what the search finds (proofs/), and its rows (specs/), no code.
#![tactic(auto)]
