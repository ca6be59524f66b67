// The syntax tree that a good record tree stands for: definitions in specs/, the law that unfolds one record in proofs/; there is no code here.
#![tactic(auto)]
