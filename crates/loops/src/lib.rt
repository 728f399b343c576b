// No code: the definitions of loops, searches and sums (specs/Loop.antt) and their laws (proofs/Loop.antt), for all other crates.
#![tactic(auto)]
