// Definitions and theorems that several crates cite: see specs/ and proofs/. There is no code here.
#![tactic(auto)]
