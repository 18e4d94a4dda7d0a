// Where a reader stands behind a step, defined and proved over the walk's definition: see specs/Place.antt. There is no code here.
#![tactic(auto)]
