// No code: what is promised, as statements in specs/ and their proofs in proofs/.

#![tactic(auto)]
