// What is claimed of mixed streams, and the proofs: see specs/. There is no code here.
#![tactic(auto)]
