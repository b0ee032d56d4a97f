// No code: the pair of ends that the exported calls `koy_initiator_…` and `koy_responder_…` make, on the bytes of their records, codes and
// told numbers (specs/), and the theorem that it keeps demand 3 (proofs/).
#![tactic(auto)]
