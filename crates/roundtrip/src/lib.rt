// What the writer writes the reader reads, and what the reader reads the writer writes. Theorems in specs/; there is no code here.
#![tactic(auto)]
