// No code: the published rules as definitions, in specs/, and what follows from them, in proofs/.
#![tactic(auto)]
