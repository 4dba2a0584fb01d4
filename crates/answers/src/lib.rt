// The theorem about the numbers that the C interface answers: see specs/ and proofs/. There is no code here.
#![tactic(auto)]
