// What holds of every listing, and the sample of document 01: see proofs/. There is no code here.
#![tactic(auto)]
