// Damage to a received string does not travel, over the promises of the calls alone: definitions in specs/, proofs in proofs/, no code.
#![tactic(auto)]
