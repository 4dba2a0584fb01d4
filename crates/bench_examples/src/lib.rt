// The bench examples of document 01, as one table about the definitions: see specs/ and proofs/. There is no code here.
#![tactic(auto)]
