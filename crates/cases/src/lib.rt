// No code: cases a to j of document 01, edges and refusals, by computation, in proofs/.

#![tactic(auto)]
