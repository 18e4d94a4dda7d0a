// Number 19 beside 5: what request j of 02 asks of every call, stated and proved over the definitions. Theorems in specs/; there is no code here.
#![tactic(auto)]
