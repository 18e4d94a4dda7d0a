// What is claimed of the walk, stated and proved over its definition: see specs/Claims.antt. There is no code here.
#![tactic(auto)]
