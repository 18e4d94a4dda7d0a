// Laws of an item's sextets, as the writer makes them and the reader finds them, under the round trips. Theorems in specs/; there is no code here.
#![tactic(auto)]
