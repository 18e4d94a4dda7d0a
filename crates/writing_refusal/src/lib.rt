// Why nothing is written, before its room is asked: in specs/ which refusal it is, or none. There is no code here.
#![tactic(auto)]
