// What the call that writes a group answers: the group's size, or a refusal with its place in the body. What it means is defined in specs/;
// there is no code here.
#![tactic(auto)]
