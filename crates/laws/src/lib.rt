// Laws that every crate above cites. Definitions stand in specs/, lemmas in proofs/; there is no code here.
#![tactic(auto)]
