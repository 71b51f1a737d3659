// The rules of an uncut body: definitions only (specs/), and laws about them (proofs/).
#![tactic(auto)]
