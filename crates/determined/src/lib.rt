// One claim allows one outcome, of every public claim: statements (specs/) and theorems (proofs/), no code.
