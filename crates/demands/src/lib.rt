// No code: the theorems about the rules.
#![tactic(auto)]
