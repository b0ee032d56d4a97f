// No code: what a station list is, stated of any list (specs/), that ours is one, and that no two answer differently (proofs/).
#![tactic(auto)]
