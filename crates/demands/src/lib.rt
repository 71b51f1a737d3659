// The user's three demands, and what the lister prints, as theorems over every crate: statements in specs/, proofs in proofs/, no function.
#![tactic(auto)]
