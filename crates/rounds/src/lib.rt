// A full round brings every stable time on; quiet installs; what a lag says: theorems only, in proofs/ and specs/.
#![tactic(auto)]
