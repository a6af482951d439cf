// No code: plain laws, in proofs/, that the proofs of other crates cite.
#![tactic(auto)]
