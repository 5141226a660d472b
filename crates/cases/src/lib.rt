// Document 01's P cases: one table, one theorem. Definitions and proofs only.
#![tactic(auto)]
