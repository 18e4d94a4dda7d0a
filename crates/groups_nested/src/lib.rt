// Calls that write a group around groups one in the other, as a table of examples: see specs/. There is no code here.
#![tactic(auto)]
