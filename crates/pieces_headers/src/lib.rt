// Which units of a header decide what is framed (02 f). What is proved of it is in specs/; there is no code here.
#![tactic(auto)]
