// Unit by unit through a top-level item (02 f). What is proved of it is in specs/; there is no code here.
#![tactic(auto)]
