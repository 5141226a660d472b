// Request U11 of document 02: what the sending end and the station promise together. Definitions and proofs only.
#![tactic(auto)]
