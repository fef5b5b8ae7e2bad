// Conditions 2 and 3 of any model, and five wrong models that break them: definitions (specs/) and theorems (proofs/), no code.
