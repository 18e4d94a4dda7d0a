// What is judged of an item before its end has come (02 f). What is proved of it is in specs/; there is no code here.
#![tactic(auto)]
