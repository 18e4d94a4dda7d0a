// What is claimed of the second judge, stated and proved over its definitions: see specs/Claims.antt. There is no code here.
#![tactic(auto)]
