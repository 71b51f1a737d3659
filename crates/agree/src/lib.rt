// That the streamed reader agrees with the rules of an uncut body: statements (specs/) and their proofs (proofs/), no function.
#![tactic(auto)]
