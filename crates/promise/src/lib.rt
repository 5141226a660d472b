// Item 3 of document 01: one theorem over every list of calls. Definitions and proofs only.
#![tactic(auto)]
