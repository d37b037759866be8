// Theory alone: the facts on rounded numbers stand in specs/ and proofs/.
#![tactic(auto)]
