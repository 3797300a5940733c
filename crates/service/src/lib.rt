// Theory only: in a finished run all honest servers accepted what one of them accepted, and every honest client's write, in proofs/.
#![tactic(auto)]
