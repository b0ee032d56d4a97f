// No code: the model of our two ends on messages (specs/), demand 3 proved of it and of every encoding of it, and wrong ends for which
// the demand is refuted (proofs/). The statement itself stands in `demand_3`.
#![tactic(auto)]
