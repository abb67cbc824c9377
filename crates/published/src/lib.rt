// The published list of refusals, and that each call is refused as it says: definitions and laws, no code.
#![tactic(auto)]
