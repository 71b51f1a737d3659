// The user's three demands for the bodies of demultiplexed records, as theorems: statements in specs/, proofs in proofs/, no function.
#![tactic(auto)]
