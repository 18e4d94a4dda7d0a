// Streams cut into pieces with the rows that each piece gives, and calls with their refusals, as tables of examples: see specs/. There is no code here.
#![tactic(auto)]
