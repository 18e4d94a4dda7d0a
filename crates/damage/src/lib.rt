// The damage theorem, over any framing and any judge: see specs/. There is no code here.
#![tactic(auto)]
