// General laws that the proofs of the other crates cite. There is no code here.
#![tactic(auto)]
