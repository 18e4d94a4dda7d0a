// How much a single primitive holds, stated and proved: see specs/Claims.antt. There is no code here.
#![tactic(auto)]
