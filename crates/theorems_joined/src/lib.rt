// What is said of two coders in a row, over the promises of the calls alone: definitions in specs/, proofs in proofs/, no code.
#![tactic(auto)]
