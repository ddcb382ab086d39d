// No code: the definitions stand in specs/, and their laws in proofs/.
#![tactic(auto)]
