// Images: what is written of a description is read back, and the check is exact. Proofs only, in specs/. No code stands here.
#![tactic(auto)]
