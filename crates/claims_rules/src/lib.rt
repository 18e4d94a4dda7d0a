// A refusal's number by conditions in order, and that framing and judging give the first that holds. Theorems in specs/; there is no code here.
#![tactic(auto)]
