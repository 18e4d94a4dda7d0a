// What is claimed of the calls for C, stated and proved over their definitions: see specs/Claims.antt. There is no code here.
#![tactic(auto)]
