// Definitions only: digest lists, and a value from the blocks of a group, in specs/.
#![tactic(auto)]
