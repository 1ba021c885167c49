// Terms in rows of words: specs/ says where a term stands, proofs/ what follows for a walk over the row.
#![tactic(auto)]
