// Which roundings of document 01 favour the ship: definitions (specs/) and what is proved of them (proofs/). There is no code here.
#![tactic(auto)]
