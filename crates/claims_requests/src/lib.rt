// What 02's requests b, c, g and h ask of the definitions, stated and proved: see specs/Claims.antt. There is no code here.
#![tactic(auto)]
