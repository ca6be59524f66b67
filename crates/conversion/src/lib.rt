// What conversion is: definitions in specs/, one file for each module of the Rust's converter; facts about them in proofs/; there is no code here.
#![tactic(auto)]
