// Theory alone: document 01 as definitions stands in specs/, and what is proved of them in proofs/.
#![tactic(auto)]
