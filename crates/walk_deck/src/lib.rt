// Steps of the walk with what they find, as a table of examples: see specs/. There is no code here.
#![tactic(auto)]
