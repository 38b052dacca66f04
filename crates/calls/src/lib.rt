// No code: lists of calls and their answers in bytes are in specs/, their laws in proofs/.

#![tactic(auto)]
