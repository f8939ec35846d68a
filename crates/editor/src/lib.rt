// One text being edited, below every layout of its history: definitions and proofs, no code.
#![tactic(auto)]
