// Theory only: runs of honest servers and clients, and the theorem about every run, in specs/ and proofs/.
#![tactic(auto)]
