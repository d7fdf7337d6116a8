// The three demands as statements over the contracts of the public calls, and their proofs.
#![tactic(auto)]
