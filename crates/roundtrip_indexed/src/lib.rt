// What the writer of indexed items writes their reader reads, and what it reads the writer writes. Theorems in specs/; there is no code here.
#![tactic(auto)]
