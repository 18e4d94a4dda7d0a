// Laws of the definitions of mixed streams: see specs/. There is no code here.
#![tactic(auto)]
