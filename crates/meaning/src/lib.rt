// What one input leaves, a run over a list of inputs, and the bench: definitions (specs/), and that its rows hold (proofs/), no code.
#![tactic(auto)]
