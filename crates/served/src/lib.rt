// Theory only: in a finished run every operation of an honest client has ended. The statement is in specs/, its proof in proofs/.
#![tactic(auto)]
