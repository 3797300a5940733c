// Theory only: what one step of a server or a client changes, in proofs/.
#![tactic(auto)]
