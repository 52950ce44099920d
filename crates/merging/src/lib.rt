// Merging does not depend on order, grouping or repeats: theorems only, in proofs/ and specs/.
#![tactic(auto)]
