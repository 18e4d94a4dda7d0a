// All units of a stream (02 f): the rows that come out are the report's. What is proved of it is in specs/; there is no code here.
#![tactic(auto)]
