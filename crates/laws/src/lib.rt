// No code: the definitions and laws that the proofs of the other crates share.
#![tactic(auto)]
