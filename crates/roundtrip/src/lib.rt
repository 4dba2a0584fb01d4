// The theorem about the deltas that are written: see proofs/. There is no code here.
#![tactic(auto)]
