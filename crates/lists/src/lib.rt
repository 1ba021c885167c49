// Definitions only: see specs/.
#![tactic(auto)]
