// The theory of two machines in a row: definitions in specs/, laws in proofs/, no code.
#![tactic(auto)]
