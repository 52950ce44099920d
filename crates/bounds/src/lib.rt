// Every step keeps a store well formed; no timestamp, pair or value passes its bound: theorems only, in proofs/ and specs/.
#![tactic(auto)]
