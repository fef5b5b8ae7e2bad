// What a replay prints, and that it is a run. Definitions and proofs alone.
#![tactic(auto)]
