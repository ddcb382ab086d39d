// No code: what follows from the promises of the public functions stands in proofs/.
#![tactic(auto)]
