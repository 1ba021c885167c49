// Definitions and theorems only: specs/ says what a reversible system is, proofs/ shows what follows.
#![tactic(auto)]
