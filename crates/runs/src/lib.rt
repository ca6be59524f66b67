// The two runs of demand 3, on the syntax tree and on the body, and the claim that they share all that is seen outside: definitions in specs/, the theorem in proofs/; there is no code here.
#![tactic(auto)]
