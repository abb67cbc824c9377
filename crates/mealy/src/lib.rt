// The theory of line coders as Mealy machines: definitions in specs/, laws in proofs/, no code.
#![tactic(auto)]
