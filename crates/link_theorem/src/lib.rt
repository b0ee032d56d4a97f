// No code: the pair of ends that the calls of `Initiator` and `Responder` make, on records, lent buffers and bytes (specs/), and the
// theorem that it keeps demand 3 (proofs/).
#![tactic(auto)]
