// Readers exist and nobody is stuck; a step writes one server's stretch at most: theorems only, in proofs/ and specs/.
#![tactic(auto)]
