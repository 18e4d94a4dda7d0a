// The limit of nesting: so many groups may be open, one in the other. A number alone, so that who needs no more rests on no code.
#![tactic(auto)]

pub const MAX_DEPTH: usize = 64;
