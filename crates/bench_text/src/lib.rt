// Bench text as definitions, in specs/, and the theorems over them, in proofs/; no code.

#![tactic(auto)]
