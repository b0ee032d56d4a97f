// No code: the pair of ends that the guarded calls make, on the bytes of their records and on their guards (specs/), and the theorems that it
// keeps demand 3 and that an answer names what it answers (proofs/).
#![tactic(auto)]
