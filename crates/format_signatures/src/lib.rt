// Examples of indexed items and of calls on them, as tables: see specs/. There is no code here.
#![tactic(auto)]
