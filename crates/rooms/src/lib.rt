// Theorems only: what is promised of the rooms that setup and step leave, by their contracts (proofs/ and specs/).
#![tactic(auto)]
