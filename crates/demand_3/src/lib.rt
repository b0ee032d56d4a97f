// No code: demand 3, stated of any pair of ends (specs/), and what follows of it for any pair (proofs/).
#![tactic(auto)]
