// What later requests promise after any calls from a start: marks, dues, silent boats, laws of pieces and levels. Definitions and proofs only.
#![tactic(auto)]
