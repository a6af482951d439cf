// No code: one step of the unit beside the plain memory. What is compared after a call is in specs/, that it is the same in proofs/.
#![tactic(auto)]
