// No code: the model's definitions are in specs/, closed cases of them in proofs/.

#![tactic(auto)]
