// No code: demand 2, stated of any reader, writer, station list and walk (specs/); that it holds of ours, and wrong systems refuted (proofs/).
#![tactic(auto)]
