// No functions: the definitions stand in specs/, their laws in proofs/.
#![tactic(auto)]
