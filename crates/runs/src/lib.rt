// The runs of document 01 on the definitions: a table of them (specs/) and its proof by computation (proofs/). There is no code here.
#![tactic(auto)]
