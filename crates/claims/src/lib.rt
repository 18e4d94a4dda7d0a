// The demands, stated and proved over the definitions of format: see specs/Claims.antt. There is no code here.
#![tactic(auto)]
