// What is claimed of streams that arrive in pieces (02 f), stated and proved over their definition: see specs/Claims.antt. There is no code
// here.
#![tactic(auto)]
