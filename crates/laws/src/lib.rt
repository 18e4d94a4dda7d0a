// Laws of the definitions of format, proved once and cited by the code's proofs. They stand in specs/; there is no code here.
#![tactic(auto)]
