// Lists and scans, in specs/ and proofs/; no code.

#![tactic(auto)]
