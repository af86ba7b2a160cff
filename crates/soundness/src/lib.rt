// Theorems alone: specs/ states demand 3, proofs/ proves it.
#![tactic(auto)]
