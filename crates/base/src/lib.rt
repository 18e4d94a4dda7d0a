// Laws on lists, digits, tables and units that several crates cite. They stand in specs/; there is no code here.
#![tactic(auto)]
