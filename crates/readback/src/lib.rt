// Theorems only: what is printed is read back (specs/ReadBack.antt).
#![tactic(auto)]
