// What the fast way to an accepted item asks, what it says, and the laws of its steps: see specs/Fast.antt. There is no code here.
#![tactic(auto)]
