// Theory only: computed runs, in proofs/.
#![tactic(auto)]
