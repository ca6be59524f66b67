// The whole call, the three demands on it and what is asked of its visits, as definitions in specs/, with what follows for every run of the call in proofs/; there is no code here.
#![tactic(auto)]
