// A state that is fit stays fit (02 f). What is proved of it is in specs/; there is no code here.
#![tactic(auto)]
