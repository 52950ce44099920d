// A read at a snapshot is the merge of all that was decided at or below it, then and later: theorems only, in proofs/ and specs/.
#![tactic(auto)]
