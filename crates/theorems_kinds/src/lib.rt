// What the calls for kinds of letter give together, over their promises alone: definitions in specs/, proofs in proofs/, no code.
#![tactic(auto)]
