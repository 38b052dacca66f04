// No code: the change list for reader and writer is in specs/, its laws are in proofs/.

#![tactic(auto)]
