// No two decks alike: what was written is told by its text, and by its binary. Theorems in specs/; there is no code here.
#![tactic(auto)]
