// A session and its own edits: what it wrote it sees, wherever it is carried, and what a transaction is at its end: theorems only, in proofs/ and specs/.
#![tactic(auto)]
