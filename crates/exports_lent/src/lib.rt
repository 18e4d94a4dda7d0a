// The walk in instalments over a state that C lends, defined, and what is claimed of it: see specs/Claims.antt. There is no code here.
#![tactic(auto)]
