// What every reached store has, and each step keeps: theorems only, in proofs/ and specs/.
#![tactic(auto)]
