// What the libraries are held to as a whole. The crate has no code: specs/ states document 01's samples and what a refused call leaves; proofs/
// shows both of ours, that no second outcome fits the promise of any public call, and refutes the wrong ones.
#![tactic(auto)]
