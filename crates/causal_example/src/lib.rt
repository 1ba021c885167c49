// Definitions and theorems only: a small system that keeps the laws of the crate causal.
#![tactic(auto)]
