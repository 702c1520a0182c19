// Document 01 as definitions (specs/) and what is proved of them (proofs/). There is no code here.
#![tactic(auto)]
