// No code: the theorem that CPU reads and writes answer the same under either flush rule. What it says is in specs/, its proof in
// proofs/.
#![tactic(auto)]
