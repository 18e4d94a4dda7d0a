// What is claimed of a comparison, stated and proved over its definitions: see specs/Claims.antt. There is no code here.
#![tactic(auto)]
