// Theory only: stamps keep the order in time of reads and writes, in proofs/.
#![tactic(auto)]
