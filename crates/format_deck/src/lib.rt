// 01's deck and calls with their answers, as tables of examples: see specs/. There is no code here.
#![tactic(auto)]
