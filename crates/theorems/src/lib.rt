// Theorems over the promises of several calls: laws in proofs/, no code.
#![tactic(auto)]
