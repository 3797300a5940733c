// Theory only: what a frame that is taken does, to a server and to a client, in proofs/.
#![tactic(auto)]
