// No code: the theorem that the program's answer and value columns are the plain memory's. What it says is in specs/, its proof in
// proofs/.
#![tactic(auto)]
