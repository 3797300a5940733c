// Theory only: what hosts do with the exported calls makes a run of `runs`, in specs/ and proofs/.
#![tactic(auto)]
