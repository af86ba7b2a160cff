// Theorems alone: specs/ states what a row program can rely on that makes a step after each of its row calls.
#![tactic(auto)]
