// No code: the theorem that every list of calls agrees with the plain memory. What it says is in specs/, its proof in proofs/.
#![tactic(auto)]
