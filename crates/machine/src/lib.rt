// Definitions and theorems only: one process step on terms.
#![tactic(auto)]
