// What is claimed of a written group, and the proofs: see specs/. There is no code here.
#![tactic(auto)]
