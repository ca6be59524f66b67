// The output tables read back from their bytes, as definitions (specs/) and laws (proofs/).
#![tactic(auto)]
