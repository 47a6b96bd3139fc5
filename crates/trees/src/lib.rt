// Rooted trees, triplets, links, building and the check: definitions (specs/) and theorems (proofs/). There is no code here.
#![tactic(auto)]
