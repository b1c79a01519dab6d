// No functions: what the soundness test notes stands in specs/, the laws in proofs/.
#![tactic(auto)]
