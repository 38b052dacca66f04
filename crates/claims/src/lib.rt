// No code: the claims are stated in specs/, and their proofs are in proofs/, with the laws of the model.

#![tactic(auto)]
