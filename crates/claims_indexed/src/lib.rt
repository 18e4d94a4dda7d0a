// What 02's request a asks of the definitions, stated and proved: see specs/Claims.antt. There is no code here.
#![tactic(auto)]
