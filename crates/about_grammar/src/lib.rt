// The grammar is exact: the machine of the definitions takes what the grammar derives. Definitions and proofs only, in specs/ and proofs/. No code stands here.

#![tactic(auto)]
