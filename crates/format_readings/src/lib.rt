// Readings of 01 that the deck leaves open, as a second table of examples: see specs/. There is no code here.
#![tactic(auto)]
