// Definitions and theorems only: words, the table of the 18 tags, trees, reading; what the module check and the control check say.
#![tactic(auto)]
