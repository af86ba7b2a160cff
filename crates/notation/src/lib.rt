// Definitions and theorems alone: specs/ has the notation of rule text, proofs/ that parsing is the grammar and undoes printing.
#![tactic(auto)]
