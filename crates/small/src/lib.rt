// No code: document 01's small table as one theorem (proofs/Small.antt).
#![tactic(auto)]
